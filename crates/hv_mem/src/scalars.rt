//! Scalars in the bytes of a block.
ghost use Rattle.std.specs.Prelude.{◌≡◌, ◌+◌, ◌≤◌, ◌<◌, ◌^◌, ℕ, IfOk, pos, length, take, drop};
ghost use Rattle.hv_ctree.specs.types.Kinds.{kind_size};
ghost use Rattle.hv_mem.specs.Memory.{spliced};
ghost use Rattle.hv_mem.specs.Scalars.{begun_by, bytes_of, integer_read, is_part_of, low_bytes, number_in, parts, read, same_block, same_pointer, scalar_of, scalar_size, whole_pointer};
ghost use Rattle.hv_mem.specs.working.Reading.{with_lower};

use crate::address::BlockId;
use crate::cells::Bytes;
use crate::kind::Kind;
use crate::value::{Byte, Pointer, Scalar, Value};
use hv_ctree::IntKind;
use hv_ctypes::{convert_to_kind, size_of_kind};

/// The bytes of an integer type, which are its alignment too.
pub fn kind_size(kind: IntKind) -> usize
    ensures value { result ≡ kind_size kind }
    ensures some { 0 < result }
    ensures few { result ≤ 8 }
{
    size_of_kind(kind) as usize
}

/// The bytes of a scalar, which are its alignment too.
pub fn scalar_size(scalar: Scalar) -> usize
    ensures value { result ≡ scalar_size scalar }
    ensures some { 0 < result }
    ensures few { result ≤ 8 }
{
    match scalar {
        Scalar::Integer(kind) => kind_size(kind),
        Scalar::Pointer => 8,
    }
}

/// What a value is stored as.
pub fn scalar_of(value: Value) -> Scalar
    ensures { result ≡ scalar_of value }
{
    match value {
        Value::Number { kind, .. } => Scalar::Integer(kind),
        Value::Pointer(_) | Value::Function { .. } => Scalar::Pointer,
    }
}

/// The scalar at an offset, or the event that reading it meets.
pub fn read(bytes: &Bytes, offset: usize, scalar: Scalar) -> Result<Value, Kind>
    requires { offset + scalar_size scalar ≤ length bytes.now }
    ensures { result ≡ read scalar (take (scalar_size scalar) (drop offset bytes.now)) }
{
    match scalar {
        Scalar::Integer(kind) => read_integer(bytes, offset, kind),
        Scalar::Pointer => match read_pointer(bytes, offset) {
            Some(Pointer::ToObject(at)) => Ok(Value::Pointer(at)),
            Some(Pointer::ToFunction { number }) => Ok(Value::Function { number }),
            None => Err(Kind::Mixed),
        },
    }
}

// The integer at an offset.
fn read_integer(bytes: &Bytes, offset: usize, kind: IntKind) -> Result<Value, Kind>
    requires { offset + kind_size kind ≤ length bytes.now }
    ensures { result ≡ integer_read kind (take (kind_size kind) (drop offset bytes.now)) }
{
    match read_number(bytes, offset, kind_size(kind)) {
        Ok(number) => Ok(Value::Number {
            bits: convert_to_kind(number, kind),
            kind,
        }),
        Err(event) => Err(event),
    }
}

// The number that so many bytes make up, the last of them first.
fn read_number(bytes: &Bytes, offset: usize, count: usize) -> Result<u64, Kind>
    requires within { offset + count ≤ length bytes.now }
    requires few { count ≤ 8 }
    ensures { result ≡ number_in (take count (drop offset bytes.now)) }
{
    let _size = bytes.len();
    let mut read: Result<u64, Kind> = Ok(0);
    let mut k = count;
    while k > 0 {
        k -= 1;
        let byte = bytes.get(offset + k);
        read = with_lower(byte, read);
    }
    read
}

// The number that a byte makes up with those above it, of which the number is given.
fn with_lower(byte: Byte, above: Result<u64, Kind>) -> Result<u64, Kind>
    requires { IfOk above (λ n. n < 2 ^ 56) }
    ensures value { result ≡ with_lower byte above }
    ensures below { (m : ℕ) → IfOk above (λ n. n < 256 ^ m) → IfOk result (λ n. n < 256 ^ (m + 1)) }
{
    match byte {
        Byte::Number(n) => match above {
            Ok(number) => Ok(number * 256 + n as u64),
            Err(event) => Err(event),
        },
        Byte::Part { .. } => Err(Kind::Mixed),
        Byte::Indeterminate => match above {
            Ok(_) => Err(Kind::Indeterminate),
            Err(event) => Err(event),
        },
    }
}

// The pointer whose eight parts stand at an offset; `None` where they are those of no one pointer.
fn read_pointer(bytes: &Bytes, offset: usize) -> Option<Pointer>
    requires { offset + 8 ≤ length bytes.now }
    ensures { result ≡ whole_pointer (take 8 (drop offset bytes.now)) }
{
    let _size = bytes.len();
    let first = bytes.get(offset);
    let Some(pointer) = first_of(first) else {
        return None;
    };
    for k in 1..8u8 {
        let byte = bytes.get(offset + k as usize);
        let is_next = is_part_of(pointer, k, byte);
        if !is_next {
            return None;
        }
    }
    Some(pointer)
}

// The pointer that a byte is the first part of.
fn first_of(byte: Byte) -> Option<Pointer>
    ensures { result ≡ begun_by byte }
{
    match byte {
        Byte::Part { pointer, index } => if index == 0 { Some(pointer) } else { None },
        Byte::Number(_) | Byte::Indeterminate => None,
    }
}

// Whether a byte is this part of a pointer.
fn is_part_of(pointer: Pointer, k: u8, byte: Byte) -> bool
    ensures { result ≡ is_part_of pointer k byte }
{
    match byte {
        Byte::Part { pointer: of, index } => index == k && same_pointer(pointer, of),
        Byte::Number(_) | Byte::Indeterminate => false,
    }
}

/// Whether two pointers are the same.
pub fn same_pointer(p: Pointer, q: Pointer) -> bool
    ensures { result ≡ same_pointer p q }
{
    match (p, q) {
        (Pointer::ToObject(a), Pointer::ToObject(b)) => same_block(a.block, b.block)
            && a.offset == b.offset,
        (Pointer::ToFunction { number: m }, Pointer::ToFunction { number: n }) => m == n,
        (Pointer::ToObject(_), Pointer::ToFunction { .. })
        | (Pointer::ToFunction { .. }, Pointer::ToObject(_)) => false,
    }
}

// Whether two blocks, or null pointers, are the same.
fn same_block(a: Option<BlockId>, b: Option<BlockId>) -> bool
    ensures { result ≡ same_block a b }
{
    match (a, b) {
        (Some(a), Some(b)) => a.index == b.index,
        (None, None) => true,
        (Some(_), None) | (None, Some(_)) => false,
    }
}

/// Stores a value at an offset.
pub fn write(bytes: &mut Bytes, offset: usize, value: Value)
    requires { offset + scalar_size (scalar_of value) ≤ length bytes.old }
    ensures { bytes.new ≡ spliced (pos offset) (bytes_of value) bytes.old }
{
    match value {
        Value::Number { bits, kind } => write_number(bytes, offset, bits, kind_size(kind)),
        Value::Pointer(at) => write_pointer(bytes, offset, Pointer::ToObject(at)),
        Value::Function { number } => write_pointer(bytes, offset, Pointer::ToFunction { number }),
    }
}

// Stores the lowest bytes of a number at an offset.
fn write_number(bytes: &mut Bytes, offset: usize, number: u64, count: usize)
    requires { offset + count ≤ length bytes.old }
    ensures { bytes.new ≡ spliced (pos offset) (low_bytes count number) bytes.old }
{
    let _size = bytes.len();
    let mut rest = number;
    for k in 0..count {
        bytes.put(offset + k, Byte::Number((rest % 256) as u8));
        rest /= 256;
    }
}

// Stores the eight parts of a pointer at an offset.
fn write_pointer(bytes: &mut Bytes, offset: usize, pointer: Pointer)
    requires { offset + 8 ≤ length bytes.old }
    ensures { bytes.new ≡ spliced (pos offset) (parts pointer) bytes.old }
{
    let _size = bytes.len();
    for k in 0..8u8 {
        bytes.put(offset + k as usize, Byte::Part { pointer, index: k });
    }
}
