//! Tables of accesses. A row names its block by its number; `NULL` stands for none.
use super::*;
use std::process::Abort;
use std::test::Fail;

/// Stands for no block.
const NULL: u64 = 99;

/// What a load gives: a block, an offset, what is read, the answer.
type LoadRow = (u64, i64, Scalar, Result<Value, Kind>);

/// What a store answers: a block, an offset, the value, the answer.
type StoreRow = (u64, i64, Value, Result<(), Kind>);

/// What a copy answers: a block and an offset, another block and an offset, the bytes, the
/// alignment, the answer.
type CopyRow = (u64, i64, u64, i64, u64, u64, Result<(), Kind>);

// The address that a row names.
fn address(block: u64, offset: i64) -> Address {
    let block = if block == NULL {
        None
    } else {
        Some(BlockId { index: block })
    };
    Address { block, offset }
}

// What a load answers; `None` where the memory has no such block.
fn load(blocks: &Blocks, at: Address, scalar: Scalar) -> Option<Result<Value, Kind>> {
    if blocks.has(at) {
        Some(blocks.load(at, scalar))
    } else {
        None
    }
}

// What a store answers; `None` where the memory has no such block.
fn store(blocks: &mut Blocks, at: Address, value: Value) -> Option<Result<(), Kind>> {
    if blocks.has(at) {
        Some(blocks.store(at, value))
    } else {
        None
    }
}

// What a copy answers; `None` where the memory has no such block.
fn copy(
    blocks: &mut Blocks,
    from: Address,
    to: Address,
    bytes: u64,
    align: u64,
) -> Option<Result<(), Kind>> {
    if blocks.has(from) && blocks.has(to) && align > 0 {
        Some(blocks.copy(from, to, bytes, align))
    } else {
        None
    }
}

// Ends a block that the memory has.
fn end(blocks: &mut Blocks, block: u64) {
    let block = BlockId { index: block };
    let start = Address {
        block: Some(block),
        offset: 0,
    };
    if blocks.has(start) {
        blocks.end(block);
    }
}

// Makes a block read-only that the memory has.
fn seal(blocks: &mut Blocks, block: u64) {
    let block = BlockId { index: block };
    let start = Address {
        block: Some(block),
        offset: 0,
    };
    if blocks.has(start) {
        blocks.seal(block);
    }
}

fn loads(rt: &impl Abort, blocks: &Blocks, rows: &[LoadRow]) {
    for (block, offset, scalar, answer) in rows {
        let got = load(blocks, address(*block, *offset), *scalar);
        assert_eq!(rt;
            got,
            Some(*answer),
            "block {block} at {offset} as {scalar:?}"
        );
    }
}

fn stores(rt: &impl Abort, blocks: &mut Blocks, rows: &[StoreRow]) {
    for (block, offset, value, answer) in rows {
        let got = store(blocks, address(*block, *offset), *value);
        assert_eq!(rt;
            got,
            Some(*answer),
            "block {block} at {offset} of {value:?}"
        );
    }
}

fn copies(rt: &impl Abort, blocks: &mut Blocks, rows: &[CopyRow]) {
    for (from, offset, to, target, bytes, align, answer) in rows {
        let got = copy(
            blocks,
            address(*from, *offset),
            address(*to, *target),
            *bytes,
            *align,
        );
        assert_eq!(rt;
            got,
            Some(*answer),
            "{bytes} of {from} at {offset} to {to} at {target}"
        );
    }
}

const INT: Scalar = Scalar::Integer(IntKind::Int);

const LONG: Scalar = Scalar::Integer(IntKind::Long);

// Block 0 has a number in bytes 0 to 3, nothing in 4 to 7, a pointer in 8 to 15, half of it in 16
// to 19, and nothing after that. Block 1 has ended, block 2 is read-only and has a number.
static BEFORE: [StoreRow; 3] = [
    (
        0,
        0,
        Value::Number {
            bits: 5,
            kind: IntKind::Int,
        },
        Ok(()),
    ),
    (
        0,
        8,
        Value::Pointer(Address {
            block: Some(BlockId { index: 0 }),
            offset: 0,
        }),
        Ok(()),
    ),
    (
        2,
        0,
        Value::Number {
            bits: 6,
            kind: IntKind::Int,
        },
        Ok(()),
    ),
];

// A row for each pair of events that meet at one access.
static READS: [LoadRow; 23] = [
    (
        0,
        0,
        INT,
        Ok(Value::Number {
            bits: 5,
            kind: IntKind::Int,
        }),
    ),
    (
        0,
        8,
        Scalar::Pointer,
        Ok(Value::Pointer(Address {
            block: Some(BlockId { index: 0 }),
            offset: 0,
        })),
    ),
    (NULL, 0, INT, Err(Kind::NullAccess)),
    (NULL, 1, INT, Err(Kind::NullAccess)),
    (NULL, -1, Scalar::Pointer, Err(Kind::NullAccess)),
    (1, 0, INT, Err(Kind::DeadObject)),
    (1, 1, INT, Err(Kind::DeadObject)),
    (1, 6, INT, Err(Kind::DeadObject)),
    (1, -4, INT, Err(Kind::DeadObject)),
    (0, 24, INT, Err(Kind::OutsideObject)),
    (0, 21, INT, Err(Kind::OutsideObject)),
    (0, -1, INT, Err(Kind::OutsideObject)),
    (0, 17, Scalar::Pointer, Err(Kind::OutsideObject)),
    (0, 2, INT, Err(Kind::Misaligned)),
    (0, 10, INT, Err(Kind::Misaligned)),
    (0, 4, Scalar::Pointer, Err(Kind::Misaligned)),
    (0, 8, INT, Err(Kind::Mixed)),
    (0, 16, LONG, Err(Kind::Mixed)),
    (0, 16, Scalar::Pointer, Err(Kind::Mixed)),
    (0, 0, Scalar::Pointer, Err(Kind::Mixed)),
    (0, 4, INT, Err(Kind::Indeterminate)),
    (0, 0, LONG, Err(Kind::Indeterminate)),
    (
        2,
        0,
        INT,
        Ok(Value::Number {
            bits: 6,
            kind: IntKind::Int,
        }),
    ),
];

static WRITES: [StoreRow; 6] = [
    (
        NULL,
        2,
        Value::Number {
            bits: 1,
            kind: IntKind::Int,
        },
        Err(Kind::NullAccess),
    ),
    (
        1,
        2,
        Value::Number {
            bits: 1,
            kind: IntKind::Int,
        },
        Err(Kind::DeadObject),
    ),
    (
        2,
        6,
        Value::Number {
            bits: 1,
            kind: IntKind::Int,
        },
        Err(Kind::OutsideObject),
    ),
    (
        2,
        2,
        Value::Number {
            bits: 1,
            kind: IntKind::Int,
        },
        Err(Kind::Misaligned),
    ),
    (
        2,
        4,
        Value::Number {
            bits: 1,
            kind: IntKind::Int,
        },
        Err(Kind::ReadOnly),
    ),
    (
        2,
        0,
        Value::Number {
            bits: 1,
            kind: IntKind::Int,
        },
        Err(Kind::ReadOnly),
    ),
];

static UNCHANGED: [LoadRow; 1] = [(
    2,
    0,
    INT,
    Ok(Value::Number {
        bits: 6,
        kind: IntKind::Int,
    }),
)];

// The first event counts, in the order null, dead, outside, misaligned, read-only, mixed,
// indeterminate.
#[test]
fn the_first_event_of_an_access_counts(rt: HostRuntime) -> Result<(), Fail> {
    let mut blocks = Blocks::new(rt.alloc());
    let _ = blocks.add(BlockName::Declared { number: 0 }, 24)?;
    let _ = blocks.add(BlockName::Allocated { number: 0 }, 8)?;
    let _ = blocks.add(BlockName::Literal { number: 0 }, 8)?;
    stores(&rt, &mut blocks, &BEFORE);
    assert_eq!(rt;
        copy(&mut blocks, address(0, 8), address(0, 16), 4, 4),
        Some(Ok(()))
    );
    end(&mut blocks, 1);
    seal(&mut blocks, 2);
    loads(&rt, &blocks, &READS);
    stores(&rt, &mut blocks, &WRITES);
    loads(&rt, &blocks, &UNCHANGED);
    Ok(())
}

// Every scalar at its limits.
static VALUES: [Value; 25] = [
    Value::Number {
        bits: 0,
        kind: IntKind::Boolean,
    },
    Value::Number {
        bits: 1,
        kind: IntKind::Boolean,
    },
    Value::Number {
        bits: 0xffff_ffff_ffff_ff80,
        kind: IntKind::Char,
    },
    Value::Number {
        bits: 127,
        kind: IntKind::Char,
    },
    Value::Number {
        bits: 0xffff_ffff_ffff_ff80,
        kind: IntKind::SignedChar,
    },
    Value::Number {
        bits: 127,
        kind: IntKind::SignedChar,
    },
    Value::Number {
        bits: 255,
        kind: IntKind::UnsignedChar,
    },
    Value::Number {
        bits: 0xffff_ffff_ffff_8000,
        kind: IntKind::Short,
    },
    Value::Number {
        bits: 32_767,
        kind: IntKind::Short,
    },
    Value::Number {
        bits: 65_535,
        kind: IntKind::UnsignedShort,
    },
    Value::Number {
        bits: 0xffff_ffff_8000_0000,
        kind: IntKind::Int,
    },
    Value::Number {
        bits: 2_147_483_647,
        kind: IntKind::Int,
    },
    Value::Number {
        bits: 4_294_967_295,
        kind: IntKind::UnsignedInt,
    },
    Value::Number {
        bits: 0x8000_0000_0000_0000,
        kind: IntKind::Long,
    },
    Value::Number {
        bits: 0x7fff_ffff_ffff_ffff,
        kind: IntKind::Long,
    },
    Value::Number {
        bits: 0xffff_ffff_ffff_ffff,
        kind: IntKind::UnsignedLong,
    },
    Value::Number {
        bits: 0x8000_0000_0000_0000,
        kind: IntKind::LongLong,
    },
    Value::Number {
        bits: 0x7fff_ffff_ffff_ffff,
        kind: IntKind::LongLong,
    },
    Value::Number {
        bits: 0xffff_ffff_ffff_ffff,
        kind: IntKind::UnsignedLongLong,
    },
    Value::Pointer(Address {
        block: None,
        offset: 0,
    }),
    Value::Pointer(Address {
        block: Some(BlockId { index: 0 }),
        offset: 0,
    }),
    Value::Pointer(Address {
        block: Some(BlockId { index: 0 }),
        offset: -9223372036854775808,
    }),
    Value::Pointer(Address {
        block: Some(BlockId { index: 0 }),
        offset: 9223372036854775807,
    }),
    Value::Function { number: 0 },
    Value::Function {
        number: 0xffff_ffff_ffff_ffff,
    },
];

#[test]
fn what_is_stored_is_loaded(rt: HostRuntime) -> Result<(), Fail> {
    let mut blocks = Blocks::new(rt.alloc());
    let _ = blocks.add(BlockName::Declared { number: 0 }, 8)?;
    for value in &VALUES {
        let scalar = match value {
            Value::Number { kind, .. } => Scalar::Integer(*kind),
            Value::Pointer(_) | Value::Function { .. } => Scalar::Pointer,
        };
        assert_eq!(rt; store(&mut blocks, address(0, 0), *value), Some(Ok(())));
        assert_eq!(rt; load(&blocks, address(0, 0), scalar), Some(Ok(*value)));
    }
    Ok(())
}

// Bytes are little-endian, signs are extended, and a `_Bool` is 1 unless its byte is 0.
static WHOLE: [StoreRow; 1] = [(
    0,
    0,
    Value::Number {
        bits: 0x8182_8384_0002_00ff,
        kind: IntKind::UnsignedLong,
    },
    Ok(()),
)];

static PARTS: [LoadRow; 9] = [
    (
        0,
        0,
        Scalar::Integer(IntKind::UnsignedChar),
        Ok(Value::Number {
            bits: 255,
            kind: IntKind::UnsignedChar,
        }),
    ),
    (
        0,
        0,
        Scalar::Integer(IntKind::Char),
        Ok(Value::Number {
            bits: 0xffff_ffff_ffff_ffff,
            kind: IntKind::Char,
        }),
    ),
    (
        0,
        0,
        Scalar::Integer(IntKind::Boolean),
        Ok(Value::Number {
            bits: 1,
            kind: IntKind::Boolean,
        }),
    ),
    (
        0,
        1,
        Scalar::Integer(IntKind::Boolean),
        Ok(Value::Number {
            bits: 0,
            kind: IntKind::Boolean,
        }),
    ),
    (
        0,
        2,
        Scalar::Integer(IntKind::Boolean),
        Ok(Value::Number {
            bits: 1,
            kind: IntKind::Boolean,
        }),
    ),
    (
        0,
        0,
        Scalar::Integer(IntKind::Short),
        Ok(Value::Number {
            bits: 255,
            kind: IntKind::Short,
        }),
    ),
    (
        0,
        0,
        Scalar::Integer(IntKind::Int),
        Ok(Value::Number {
            bits: 0x2_00ff,
            kind: IntKind::Int,
        }),
    ),
    (
        0,
        4,
        Scalar::Integer(IntKind::Int),
        Ok(Value::Number {
            bits: 0xffff_ffff_8182_8384,
            kind: IntKind::Int,
        }),
    ),
    (
        0,
        6,
        Scalar::Integer(IntKind::Short),
        Ok(Value::Number {
            bits: 0xffff_ffff_ffff_8182,
            kind: IntKind::Short,
        }),
    ),
];

#[test]
fn bytes_are_read_as_another_type(rt: HostRuntime) -> Result<(), Fail> {
    let mut blocks = Blocks::new(rt.alloc());
    let _ = blocks.add(BlockName::Declared { number: 0 }, 8)?;
    stores(&rt, &mut blocks, &WHOLE);
    loads(&rt, &blocks, &PARTS);
    Ok(())
}

// Two pointers one after the other; then the first is copied part by part.
static POINTERS: [StoreRow; 2] = [
    (
        0,
        0,
        Value::Pointer(Address {
            block: Some(BlockId { index: 1 }),
            offset: 4,
        }),
        Ok(()),
    ),
    (0, 8, Value::Function { number: 7 }, Ok(())),
];

static PART_BY_PART: [CopyRow; 7] = [
    (0, 0, 1, 8, 1, 1, Ok(())),
    (0, 1, 1, 9, 1, 1, Ok(())),
    (0, 2, 1, 10, 1, 1, Ok(())),
    (0, 3, 1, 11, 1, 1, Ok(())),
    (0, 4, 1, 12, 1, 1, Ok(())),
    (0, 5, 1, 13, 1, 1, Ok(())),
    (0, 6, 1, 14, 1, 1, Ok(())),
];

static LAST_PART: [CopyRow; 1] = [(0, 7, 1, 15, 1, 1, Ok(()))];

static NOT_WHOLE: [LoadRow; 1] = [(1, 8, Scalar::Pointer, Err(Kind::Mixed))];

static COPIED: [LoadRow; 3] = [
    (
        1,
        8,
        Scalar::Pointer,
        Ok(Value::Pointer(Address {
            block: Some(BlockId { index: 1 }),
            offset: 4,
        })),
    ),
    (
        0,
        0,
        Scalar::Pointer,
        Ok(Value::Pointer(Address {
            block: Some(BlockId { index: 1 }),
            offset: 4,
        })),
    ),
    (0, 8, Scalar::Pointer, Ok(Value::Function { number: 7 })),
];

// Four parts of the one pointer and four of the other.
static HALF_AND_HALF: [CopyRow; 1] = [(0, 12, 1, 12, 4, 4, Ok(()))];

// Ranges that overlap, in both directions.
static UP: [CopyRow; 1] = [(0, 0, 0, 8, 16, 8, Ok(()))];

static MOVED_UP: [LoadRow; 2] = [
    (
        0,
        8,
        Scalar::Pointer,
        Ok(Value::Pointer(Address {
            block: Some(BlockId { index: 1 }),
            offset: 4,
        })),
    ),
    (0, 16, Scalar::Pointer, Ok(Value::Function { number: 7 })),
];

static DOWN: [CopyRow; 1] = [(0, 8, 0, 0, 16, 8, Ok(()))];

static MOVED_DOWN: [LoadRow; 4] = [
    (
        0,
        0,
        Scalar::Pointer,
        Ok(Value::Pointer(Address {
            block: Some(BlockId { index: 1 }),
            offset: 4,
        })),
    ),
    (0, 8, Scalar::Pointer, Ok(Value::Function { number: 7 })),
    (0, 24, Scalar::Pointer, Err(Kind::Mixed)),
    (0, 24, INT, Err(Kind::Indeterminate)),
];

// A number over one of the parts.
static OVER_A_PART: [StoreRow; 1] = [(
    0,
    3,
    Value::Number {
        bits: 0,
        kind: IntKind::Char,
    },
    Ok(()),
)];

static BROKEN: [LoadRow; 1] = [(0, 0, Scalar::Pointer, Err(Kind::Mixed))];

// A pointer copied part by part is whole again; half of one is none, nor is a mix of two.
#[test]
fn parts_of_pointers_move(rt: HostRuntime) -> Result<(), Fail> {
    let mut blocks = Blocks::new(rt.alloc());
    let name = BlockName::Local {
        activation: 1,
        number: 2,
    };
    let _ = blocks.add(name, 32)?;
    let _ = blocks.add(BlockName::Temporary { number: 0 }, 16)?;
    stores(&rt, &mut blocks, &POINTERS);
    copies(&rt, &mut blocks, &PART_BY_PART);
    loads(&rt, &blocks, &NOT_WHOLE);
    copies(&rt, &mut blocks, &LAST_PART);
    loads(&rt, &blocks, &COPIED);
    copies(&rt, &mut blocks, &HALF_AND_HALF);
    loads(&rt, &blocks, &NOT_WHOLE);
    Ok(())
}

#[test]
fn ranges_may_overlap(rt: HostRuntime) -> Result<(), Fail> {
    let mut blocks = Blocks::new(rt.alloc());
    let _ = blocks.add(BlockName::Declared { number: 0 }, 32)?;
    let _ = blocks.add(BlockName::Declared { number: 1 }, 16)?;
    stores(&rt, &mut blocks, &POINTERS);
    copies(&rt, &mut blocks, &UP);
    loads(&rt, &blocks, &MOVED_UP);
    copies(&rt, &mut blocks, &DOWN);
    loads(&rt, &blocks, &MOVED_DOWN);
    stores(&rt, &mut blocks, &OVER_A_PART);
    loads(&rt, &blocks, &BROKEN);
    Ok(())
}

// Block 1 has ended, block 2 is read-only.
static COPIES: [CopyRow; 8] = [
    (1, 0, NULL, 0, 4, 4, Err(Kind::DeadObject)),
    (0, 0, NULL, 0, 4, 4, Err(Kind::NullAccess)),
    (0, 2, 1, 0, 4, 4, Err(Kind::Misaligned)),
    (0, 0, 2, 0, 8, 8, Err(Kind::ReadOnly)),
    (2, 0, 0, 0, 8, 8, Ok(())),
    (0, 0, 0, 0, 9, 1, Err(Kind::OutsideObject)),
    (
        0,
        0,
        0,
        0,
        0xffff_ffff_ffff_ffff,
        1,
        Err(Kind::OutsideObject),
    ),
    (0, 1, 0, 0, 7, 1, Ok(())),
];

// What a copy meets: the source's event first, then the target's.
#[test]
fn a_copy_checks_its_source_first(rt: HostRuntime) -> Result<(), Fail> {
    let mut blocks = Blocks::new(rt.alloc());
    let _ = blocks.add(BlockName::Declared { number: 0 }, 8)?;
    let _ = blocks.add(BlockName::Declared { number: 1 }, 8)?;
    let _ = blocks.add(BlockName::Declared { number: 2 }, 8)?;
    end(&mut blocks, 1);
    seal(&mut blocks, 2);
    copies(&rt, &mut blocks, &COPIES);
    Ok(())
}

/// Whether an address is the start of an allocation: a block, an offset, the answer.
static STARTS: [(u64, i64, bool); 6] = [
    (0, 0, false),
    (1, 0, true),
    (2, 0, true),
    (2, 1, false),
    (2, -1, false),
    (NULL, 0, false),
];

fn is_allocated(blocks: &Blocks, at: Address) -> Option<bool> {
    if blocks.has(at) {
        Some(blocks.is_allocated(at))
    } else {
        None
    }
}

// Names, sizes and what is allocated.
#[test]
fn blocks_keep_their_names_and_sizes(rt: HostRuntime) -> Result<(), Fail> {
    let mut blocks = Blocks::new(rt.alloc());
    let _ = blocks.add(BlockName::Declared { number: 0 }, 4)?;
    let _ = blocks.add(BlockName::Allocated { number: 0 }, 0)?;
    let last = blocks.add(BlockName::Allocated { number: 1 }, 4_096)?;
    assert_eq!(rt; last.index, 2);
    assert_eq!(rt; blocks.allocations(), 2);
    for (block, offset, answer) in &STARTS {
        assert_eq!(rt;
            is_allocated(&blocks, address(*block, *offset)),
            Some(*answer)
        );
    }
    assert!(rt; !blocks.has(address(3, 0)));
    end(&mut blocks, 2);
    assert_eq!(rt; is_allocated(&blocks, address(2, 0)), Some(false));
    assert_eq!(rt; blocks.allocations(), 2);
    Ok(())
}

#[test]
fn a_block_keeps_its_size(rt: HostRuntime) -> Result<(), Fail> {
    let mut blocks = Blocks::new(rt.alloc());
    let block = blocks.add(BlockName::Declared { number: 0 }, 12)?;
    assert_eq!(rt; blocks.size(block), 12);
    blocks.end(block);
    assert_eq!(rt; blocks.size(block), 12);
    Ok(())
}

#[test]
fn events_are_numbered(rt: HostRuntime) {
    assert_eq!(rt; Kind::SignedOverflow.number(), 1);
    assert_eq!(rt; Kind::Misaligned.number(), 15);
}
