//! Bytes moved as they are.
ghost use Rattle.std.specs.Prelude.{◌≡◌, ◌+◌, ◌≤◌, pos, length, take, drop};
ghost use Rattle.hv_mem.specs.Memory.{spliced};

use crate::cells::Bytes;

/// Moves so many bytes of a block to another offset of it. The ranges may overlap.
pub fn move_within(bytes: &mut Bytes, from: usize, to: usize, count: usize)
    requires source { from + count ≤ length bytes.old }
    requires target { to + count ≤ length bytes.old }
    ensures { bytes.new ≡ spliced (pos to) (take count (drop from bytes.old)) bytes.old }
{
    if to <= from {
        move_down(bytes, from, to, count);
    } else {
        move_up(bytes, from, to, count);
    }
}

// Moves bytes to an offset that isn't higher, the first of them first.
fn move_down(bytes: &mut Bytes, from: usize, to: usize, count: usize)
    requires down { to ≤ from }
    requires source { from + count ≤ length bytes.old }
    ensures { bytes.new ≡ spliced (pos to) (take count (drop from bytes.old)) bytes.old }
{
    let _size = bytes.len();
    for k in 0..count {
        let byte = bytes.get(from + k);
        bytes.put(to + k, byte);
    }
}

// Moves bytes to an offset that isn't lower, the last of them first.
fn move_up(bytes: &mut Bytes, from: usize, to: usize, count: usize)
    requires up { from ≤ to }
    requires target { to + count ≤ length bytes.old }
    ensures { bytes.new ≡ spliced (pos to) (take count (drop from bytes.old)) bytes.old }
{
    let _size = bytes.len();
    let mut k = count;
    while k > 0 {
        k -= 1;
        let byte = bytes.get(from + k);
        bytes.put(to + k, byte);
    }
}

/// Copies so many bytes of one block into another.
pub fn copy_between(source: &Bytes, from: usize, target: &mut Bytes, to: usize, count: usize)
    requires source { from + count ≤ length source.now }
    requires target { to + count ≤ length target.old }
    ensures { target.new ≡ spliced (pos to) (take count (drop from source.now)) target.old }
{
    let _source_size = source.len();
    let _target_size = target.len();
    for k in 0..count {
        let byte = source.get(from + k);
        target.put(to + k, byte);
    }
}
