// Values of records by name and index.
ghost use Rattle.std.specs.Prelude.{◌≡◌, ◌<◌, pos, negsuc, slice_index, get_or};
ghost use Rattle.strategy_table.specs.Strategies.{is_of, value_of};

use listing::Records;

// Whether the record i has a name and an index.
fn is_of(r: &Records, i: usize, name: u8, index: i16) -> bool
    requires { i < 2048 }
    ensures { result ≡ is_of (get_or r.now.names i 0) (get_or r.now.indexes i (pos 0)) name index }
{
    r.names[i] == name && r.indexes[i] == index
}

// The value of the record that has a name and an index, after so many others that have both.
fn find(r: &Records, count: usize, name: u8, index: i16, after: usize) -> Option<u32>
    ensures { result ≡ value_of r.now count name index after }
{
    let mut left = after;
    for i in 0..count.min(2048) {
        if is_of(r, i, name, index) {
            if left == 0 {
                return Some(r.values[i]);
            }
            left -= 1;
        }
    }
    None
}

// The same of an index that is there.
pub fn at(r: &Records, count: usize, name: u8, index: u8, after: usize) -> Option<u32>
    ensures { result ≡ value_of r.now count name (pos index) after }
{
    find(r, count, name, index as i16, after)
}

// The value of the first record that has a name and no index.
pub fn alone(r: &Records, count: usize, name: u8) -> Option<u32>
    ensures { result ≡ value_of r.now count name (negsuc 0) 0 }
{
    find(r, count, name, -1, 0)
}
