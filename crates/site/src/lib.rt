// Four networks under one airtime limit (document 02, wish 13): a table's airtime, and a site of four places, by value.
#![tactic(auto)]

ghost use Rattle.std.specs.Prelude.{◌≡◌, ◌≤◌, ◌<◌};
ghost use Rattle.model.specs.declared.Verdict.TheVariants.{Refused};
ghost use Rattle.model.specs.Lists.{all};
ghost use Rattle.model.specs.Reader.{byte};
ghost use Rattle.model.specs.Places.{Valid, read_of};
ghost use Rattle.table.specs.Directory.{starts_of};
ghost use Rattle.rows.specs.Rows.{rows_of, RowsPlaced, RowKnown};
ghost use Rattle.site.specs.Airtime.{airtime, in_use, airtime_held, shares_horizon, placed, putting};
ghost use Rattle.site.specs.Lent.{row_airtime, LoadOf, held_of, site_in, place_in, empty_networks, carried, refusing, answered, put_call, take_call};

use model::{Verdict, layout};

// A site: its limit, the horizon and the airtime of the network in each place (horizon 0: the place is empty); then what the last call said: the
// airtime in use, and 0 or the number of its refusal with the component concerned. C has it as it stands.
#[repr(C)]
#[derive(Clone, Copy)]
pub struct Networks {
    pub limit: u32,
    pub horizons: [u16; 4],
    pub airtimes: [u32; 4],
    pub in_use: u64,
    pub number: u8,
    pub component: u8,
}

// The verdict on a table, its horizon and its airtime; 0 and 0 after a refusal.
#[derive(Clone, Copy)]
pub struct Loaded {
    pub verdict: Verdict,
    pub horizon: u16,
    pub airtime: u32,
}

// The ticks of row i's window if it is a send that is ready before the horizon, else 0.
fn row_airtime(table: &[u8], rows: &[u32], i: usize, horizon: u32) -> u32
    requires { RowKnown table.now rows.now i }
    ensures { (result ≡ row_airtime table.now horizon rows.now i) × (result ≤ 200001) }
{
    if checks::is_send(table, rows, i, horizon) {
        return rows::number(rows, i, rows::END) - rows::number(rows, i, rows::READY) + 1;
    }
    0
}

// The airtime of n rows.
fn rows_airtime(table: &[u8], rows: &[u32], count: usize, horizon: u32) -> u32
    requires { RowsPlaced table.now rows.now count }
    ensures { result ≡ airtime (read_of table.now).table horizon (rows_of rows.now count) }
{
    let mut sum: u32 = 0;
    for i in (0..count).rev() {
        sum += row_airtime(table, rows, i, horizon);
    }
    sum
}

fn refused_table(number: u8, component: u8) -> Loaded
    ensures { (result.verdict ≡ Refused number component) × (result.horizon ≡ 0) × (result.airtime ≡ 0) }
{
    Loaded {
        verdict: Verdict::Refused(number, component),
        horizon: 0,
        airtime: 0,
    }
}

// The airtime of a table that was read.
fn airtime_read(table: &[u8], starts: [u16; 8]) -> Loaded
    requires { Valid table.now × (starts ≡ starts_of table.now (byte table.now 3)) }
    ensures { LoadOf table.now result }
{
    let mut rows = [0u32; 9216];
    let r = schedule::plan_rows(table, starts, &mut rows, 0);
    let v = r.verdict;
    let n = r.count;
    match v {
        Verdict::Refused(number, component) => refused_table(number, component),
        Verdict::Accepted => {
            let horizon = parts::word_at(table, layout::TABLE_HORIZON);
            let sum = rows_airtime(table, &rows, n, parts::word32(horizon));
            Loaded {
                verdict: Verdict::Accepted,
                horizon,
                airtime: sum,
            }
        }
    }
}

// A table's verdict, horizon and airtime.
pub fn airtime(table: &[u8]) -> Loaded
    ensures { LoadOf table.now result }
{
    let r = table::read(table);
    let v = r.verdict;
    match v {
        Verdict::Refused(number, component) => refused_table(number, component),
        Verdict::Accepted => {
            let starts = r.starts;
            airtime_read(table, starts)
        }
    }
}

// The airtime of the network in place k, 0 where there is none.
fn held_in(site: Networks, k: usize) -> u32
    requires { k < 4 }
    ensures { result ≡ airtime_held (place_in site k) }
{
    if site.horizons[k] == 0 {
        0
    } else {
        site.airtimes[k]
    }
}

// The airtime in use.
fn in_use(site: Networks) -> u64
    ensures { (result ≡ in_use (site_in site).places) × (result ≤ 17179869180) }
{
    let first = u64::from(held_in(site, 0)) + u64::from(held_in(site, 1));
    let second = u64::from(held_in(site, 2)) + u64::from(held_in(site, 3));
    first + second
}

// Whether place k is empty or its network has that horizon.
fn shares_horizon(site: Networks, k: usize, horizon: u16) -> bool
    requires { k < 4 }
    ensures { result ≡ shares_horizon horizon (place_in site k) }
{
    parts::either(site.horizons[k] == 0, site.horizons[k] == horizon)
}

// Whether all networks present have that horizon.
fn one_horizon(site: Networks, horizon: u16) -> bool
    ensures { result ≡ all (shares_horizon horizon) (site_in site).places }
{
    let first = parts::both(
        shares_horizon(site, 0, horizon),
        shares_horizon(site, 1, horizon),
    );
    let second = parts::both(
        shares_horizon(site, 2, horizon),
        shares_horizon(site, 3, horizon),
    );
    parts::both(first, second)
}

// A refused call: all stays but for what it says.
fn refuse(site: Networks, number: u8, component: u8) -> Networks
    ensures { result ≡ refusing site number component }
{
    Networks {
        in_use: in_use(site),
        number,
        component,
        ..site
    }
}

// Place k holds a network of that horizon and airtime, or none: horizon 0 and airtime 0.
fn set_place(site: Networks, k: usize, horizon: u16, airtime: u32) -> Networks
    requires { (k < 4) × (horizon ≡ 0 → airtime ≡ 0) }
    ensures { result ≡ carried site k (placed (site_in site) k (held_of horizon airtime)) }
{
    let mut after = site;
    after.horizons[k] = horizon;
    after.airtimes[k] = airtime;
    Networks {
        in_use: in_use(after),
        number: 0,
        component: 255,
        ..after
    }
}

// An empty site with its limit.
pub fn empty(limit: u32) -> Networks
    ensures { result ≡ empty_networks limit }
{
    Networks {
        limit,
        horizons: [0; 4],
        airtimes: [0; 4],
        in_use: 0,
        number: 0,
        component: 255,
    }
}

// A network of that horizon and airtime is put into place k, or refused: 26 before 27 before 28.
fn put_load(site: Networks, place: u8, horizon: u16, airtime: u32) -> Networks
    requires { 1 ≤ horizon }
    ensures { result ≡ answered site place (putting (site_in site) place (record { horizon = horizon; airtime = airtime })) }
{
    let k = usize::from(place);
    if 4 <= k {
        return refuse(site, 26, 255);
    }
    if site.horizons[k] != 0 {
        return refuse(site, 26, 255);
    }
    if !one_horizon(site, horizon) {
        return refuse(site, 27, 255);
    }
    if u64::from(site.limit) < in_use(site) + u64::from(airtime) {
        return refuse(site, 28, 255);
    }
    set_place(site, k, horizon, airtime)
}

// Puts a table's network into a place of the site: the site afterwards, with what the call says.
pub fn put(table: &[u8], place: u8, site: Networks) -> Networks
    ensures { result ≡ put_call site place table.now }
{
    let load = airtime(table);
    let v = load.verdict;
    match v {
        Verdict::Refused(number, component) => refuse(site, number, component),
        Verdict::Accepted => put_load(site, place, load.horizon, load.airtime),
    }
}

// Takes the network out of a place of the site: the site afterwards, with what the call says.
pub fn take(place: u8, site: Networks) -> Networks
    ensures { result ≡ take_call site place }
{
    let k = usize::from(place);
    if 4 <= k {
        return refuse(site, 26, 255);
    }
    if site.horizons[k] == 0 {
        return refuse(site, 26, 255);
    }
    set_place(site, k, 0, 0)
}
