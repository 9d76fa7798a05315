// The sum over the records of a frame that a list of answers holds.
ghost use Rattle.std.specs.Prelude.{◌≡◌, ◌+◌, ◌%◌, ◌≤◌};
ghost use Rattle.replay.specs.Sums.{add_of, raised_of, added_of, room_of, sum_of};

use listing::Records;

// Two sums modulo 65521.
#[derive(Clone, Copy)]
pub struct Sum {
    pub a: u16,
    pub b: u16,
}

fn plus(s: u16, x: u16) -> u16
    ensures { result ≡ (s + x) % 65521 }
{
    ((u32::from(s) + u32::from(x)) % 65521) as u16
}

// A block or an index, one more than it is, 0 for none.
fn raised(n: i16) -> u16
    ensures { result ≡ raised_of n }
{
    if n < 0 { 0 } else { n as u16 + 1 }
}

impl Sum {
    fn add(self, x: u16) -> Sum
        ensures { result ≡ add_of self x }
    {
        let a = plus(self.a, x);
        Sum {
            a,
            b: plus(self.b, a),
        }
    }

    // With the parts of one more record.
    fn add_record(self, name: u8, block: i8, index: i16, first: u16, width: u16, value: u32) -> Sum
        ensures { result ≡ added_of self name block index first width value }
    {
        self.add(u16::from(name))
            .add(raised(i16::from(block)))
            .add(raised(index))
            .add(first)
            .add(width)
            .add((value / 65536) as u16)
            .add((value % 65536) as u16)
    }

    // Over the first n records.
    pub fn of_records(r: &Records, n: usize) -> Sum
        requires { n ≤ 2048 }
        ensures { result ≡ sum_of (room_of r.now) n }
    {
        let mut sum = Sum { a: 1, b: 0 };
        for i in 0..n {
            sum = sum.add_record(
                r.names[i],
                r.blocks[i],
                r.indexes[i],
                r.firsts[i],
                r.widths[i],
                r.values[i],
            );
        }
        sum
    }
}
