// The names of the fields of each part.
ghost use Rattle.std.specs.Prelude.{◌≡◌, List, ◌++◌, ◌+◌, ◌≤◌, length};
ghost use Rattle.text.specs.Words.{Added};
ghost use Rattle.place_text.specs.PlaceText.{head_names, location_names, edge_names, clock_bound_names, data_bound_names, update_names, channel_names, pair_names, name_in, field_name};

use text::put;

// A component's first 7 bytes.
fn put_head_name(out: &mut [u8], at: usize, offset: usize) -> usize
    requires { at + 30 ≤ length out.old }
    ensures { Added out.old at (name_in head_names offset) out.new result × (result ≤ at + 30) }
{
    match offset {
        2 => put(out, at, b"count of locations"),
        3 => put(out, at, b"initial location"),
        4 => put(out, at, b"count of clocks"),
        5 => put(out, at, b"count of variables"),
        6 => put(out, at, b"count of edges"),
        _ => put(out, at, b"it"),
    }
}

// A location.
fn put_location_name(out: &mut [u8], at: usize, offset: usize) -> usize
    requires { at + 30 ≤ length out.old }
    ensures { Added out.old at (name_in location_names offset) out.new result × (result ≤ at + 30) }
{
    match offset {
        0 => put(out, at, b"clock"),
        1 => put(out, at, b"bound"),
        _ => put(out, at, b"it"),
    }
}

// An edge's 7 bytes.
fn put_edge_name(out: &mut [u8], at: usize, offset: usize) -> usize
    requires { at + 30 ≤ length out.old }
    ensures { Added out.old at (name_in edge_names offset) out.new result × (result ≤ at + 30) }
{
    match offset {
        0 => put(out, at, b"kind"),
        1 => put(out, at, b"source"),
        2 => put(out, at, b"destination"),
        3 => put(out, at, b"reset mask"),
        4 => put(out, at, b"count of clock bounds"),
        5 => put(out, at, b"count of data bounds"),
        6 => put(out, at, b"count of items"),
        _ => put(out, at, b"it"),
    }
}

// A clock bound.
fn put_clock_bound_name(out: &mut [u8], at: usize, offset: usize) -> usize
    requires { at + 30 ≤ length out.old }
    ensures { Added out.old at (name_in clock_bound_names offset) out.new result × (result ≤ at + 30) }
{
    match offset {
        0 => put(out, at, b"clock"),
        1 => put(out, at, b"low"),
        3 => put(out, at, b"high"),
        _ => put(out, at, b"it"),
    }
}

// A data bound.
fn put_data_bound_name(out: &mut [u8], at: usize, offset: usize) -> usize
    requires { at + 30 ≤ length out.old }
    ensures { Added out.old at (name_in data_bound_names offset) out.new result × (result ≤ at + 30) }
{
    match offset {
        0 => put(out, at, b"variable"),
        _ => put(out, at, b"it"),
    }
}

// An update.
fn put_update_name(out: &mut [u8], at: usize, offset: usize) -> usize
    requires { at + 30 ≤ length out.old }
    ensures { Added out.old at (name_in update_names offset) out.new result × (result ≤ at + 30) }
{
    match offset {
        0 => put(out, at, b"variable"),
        1 => put(out, at, b"set or add"),
        _ => put(out, at, b"it"),
    }
}

// The channel of a send.
fn put_channel_name(out: &mut [u8], at: usize, offset: usize) -> usize
    requires { at + 30 ≤ length out.old }
    ensures { Added out.old at (name_in channel_names offset) out.new result × (result ≤ at + 30) }
{
    match offset {
        0 => put(out, at, b"channel"),
        _ => put(out, at, b"it"),
    }
}

// A pair.
fn put_pair_name(out: &mut [u8], at: usize, offset: usize) -> usize
    requires { at + 30 ≤ length out.old }
    ensures { Added out.old at (name_in pair_names offset) out.new result × (result ≤ at + 30) }
{
    match offset {
        0 => put(out, at, b"channel"),
        1 => put(out, at, b"location"),
        _ => put(out, at, b"it"),
    }
}

// The name of the field that stands there in a part of that number.
pub fn put_name(out: &mut [u8], at: usize, part: u8, offset: usize) -> usize
    requires { at + 30 ≤ length out.old }
    ensures { Added out.old at (field_name part offset) out.new result × (result ≤ at + 30) }
{
    match part {
        2 => put_head_name(out, at, offset),
        3 => put_location_name(out, at, offset),
        4 => put_edge_name(out, at, offset),
        5 => put_clock_bound_name(out, at, offset),
        6 => put_data_bound_name(out, at, offset),
        7 => put_update_name(out, at, offset),
        8 => put_channel_name(out, at, offset),
        9 => put_pair_name(out, at, offset),
        _ => put(out, at, b"it"),
    }
}
