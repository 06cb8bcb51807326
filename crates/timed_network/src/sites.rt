// Document 02, wish 13: a table's airtime, and a site of four places under one airtime limit, as numbers.
ghost use Rattle.std.specs.Prelude.{◌≡◌, List};
ghost use Rattle.site.specs.Airtime.{load_in, Request};
ghost use Rattle.site.specs.Lent.{AsChecked, empty_networks, put_call, take_call, InUse};
ghost use Rattle.site.specs.Called.{EveryCall};
ghost use Rattle.timed_network.specs.SiteNumbers.{AirtimeNumbersOf};

use crate::verdict_numbers;
use site::Networks;

// A table's verdict as two numbers, its horizon and its airtime; 0 and 0 after a refusal. C has it as it stands.
#[repr(C)]
#[derive(Clone, Copy)]
pub struct AirtimeNumbers {
    pub number: u8,
    pub component: u8,
    pub horizon: u16,
    pub airtime: u32,
}

// The airtime of a table.
#[unsafe(no_mangle)]
pub extern "C" fn timed_network_airtime(table: &[u8]) -> AirtimeNumbers
    ensures { AirtimeNumbersOf (load_in table.now) result × AsChecked table.now }
{
    let load = site::airtime(table);
    let verdict = load.verdict;
    let answer = verdict_numbers(verdict);
    AirtimeNumbers {
        number: answer.number,
        component: answer.component,
        horizon: load.horizon,
        airtime: load.airtime,
    }
}

// An empty site with its limit. What holds of it over any sequence of the two calls below is the record `InUse`; what each of them does to any site, the
// record `SiteCalls`.
#[unsafe(no_mangle)]
pub extern "C" fn timed_network_site(limit: u32) -> Networks
    ensures { (result ≡ empty_networks limit) × ((rs : List Request) → InUse limit rs) × EveryCall }
{
    site::empty(limit)
}

// A network is put into a place of a site that is lent; the site says how the call went.
#[unsafe(no_mangle)]
pub extern "C" fn timed_network_site_put(networks: &mut Networks, table: &[u8], place: u8)
    ensures { networks.new ≡ put_call networks.old place table.now }
{
    let next = site::put(table, place, *networks);
    *networks = next;
}

// A network is taken out of a place of a site that is lent.
#[unsafe(no_mangle)]
pub extern "C" fn timed_network_site_take(networks: &mut Networks, place: u8)
    ensures { networks.new ≡ take_call networks.old place }
{
    let next = site::take(place, *networks);
    *networks = next;
}
