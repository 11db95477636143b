//! Values from outside: the worked edges of the encoding.

use proto_wire::*;

/// Bytes, and how the first varint of the packed list in them is read.
const VARINTS: &[(&[u8], Result<Option<u64>, WireFault>)] = &[
    // varint_edges: an eleventh byte
    (
        b"\x80\x80\x80\x80\x80\x80\x80\x80\x80\x80\x01",
        Err(WireFault::VarintTooLong),
    ),
    // varint_limit: ten bytes, the tenth 1 or 2
    (
        b"\x80\x80\x80\x80\x80\x80\x80\x80\x80\x01",
        Ok(Some(1 << 63)),
    ),
    (
        b"\xff\xff\xff\xff\xff\xff\xff\xff\xff\x01",
        Ok(Some(u64::MAX)),
    ),
    (
        b"\xff\xff\xff\xff\xff\xff\xff\xff\xff\x02",
        Err(WireFault::VarintTooLong),
    ),
    // varint_edges: a spelling that isn't the shortest, a cut one, none
    (b"\x80\x00", Ok(Some(0))),
    (b"\x80", Err(WireFault::Truncated)),
    (b"", Ok(None)),
];

/// Whether the first varint of each list is read so.
fn are_varints(rows: &[(&[u8], Result<Option<u64>, WireFault>)]) -> bool {
    for (bytes, wanted) in rows {
        if Varints::new(bytes).next_varint() != *wanted {
            return false;
        }
    }
    true
}

#[test]
fn varint_edges(rt: HostRuntime) {
    assert!(rt; are_varints(VARINTS));
}

/// Bytes, how many fields stand before a fault of them or their end, and the fault.
const ENDS: &[(&[u8], usize, Option<WireFault>)] = &[
    // cut_field_before_number
    (b"\x02\x05", 0, Some(WireFault::Truncated)),
    (b"\x03", 0, Some(WireFault::BadFieldNumber)),
    // bytes_end_inside_field: inside a tag, eight bytes, a length, bytes, four bytes
    (b"\x80", 0, Some(WireFault::Truncated)),
    (
        b"\x09\x01\x02\x03\x04\x05\x06\x07",
        0,
        Some(WireFault::Truncated),
    ),
    (b"\x0a\x80", 0, Some(WireFault::Truncated)),
    (b"\x0a\x02\x61", 0, Some(WireFault::Truncated)),
    (b"\x0d\x01\x02\x03", 0, Some(WireFault::Truncated)),
    // varint_too_long: as a payload, before the number 0
    (
        b"\x00\x80\x80\x80\x80\x80\x80\x80\x80\x80\x80\x01",
        0,
        Some(WireFault::VarintTooLong),
    ),
    // group_wire_type: behind a field that stands
    (b"\x08\x01\x0b", 1, Some(WireFault::GroupWireType)),
    (b"\x08\x01\x0c", 1, Some(WireFault::GroupWireType)),
    // wire_type_six_or_seven
    (b"\x08\x01\x0e", 1, Some(WireFault::BadWireType)),
    (b"\x08\x01\x0f", 1, Some(WireFault::BadWireType)),
    // field_number_limit: 1 and 2^29 - 1 stand, 2^29 and 0 don't
    (b"\x08\x01", 1, None),
    (b"\xf8\xff\xff\xff\x0f\x01", 1, None),
    (
        b"\x80\x80\x80\x80\x10\x01",
        0,
        Some(WireFault::BadFieldNumber),
    ),
    (b"\x00\x01", 0, Some(WireFault::BadFieldNumber)),
    // field_number_out_of_range: before the wire type, whatever it is
    (b"\x03", 0, Some(WireFault::BadFieldNumber)),
    (b"\x04", 0, Some(WireFault::BadFieldNumber)),
    (b"\x06", 0, Some(WireFault::BadFieldNumber)),
    (b"\x07", 0, Some(WireFault::BadFieldNumber)),
];

/// Whether the fields are at their end, or at this fault.
fn are_at_end(fields: &mut Fields<'_>, fault: Option<WireFault>) -> bool {
    match fields.next_field() {
        Ok(Some(_)) => false,
        Ok(None) => fault.is_none(),
        Err(found) => fault == Some(found),
    }
}

/// Whether so many fields stand before this fault, or before the end.
fn is_end(bytes: &[u8], count: usize, fault: Option<WireFault>) -> bool {
    let mut fields = Fields::new(bytes);
    for _ in 0..count {
        if !matches!(fields.next_field(), Ok(Some(_))) {
            return false;
        }
    }
    are_at_end(&mut fields, fault)
}

/// Whether the fields of each row end so.
fn are_ends(rows: &[(&[u8], usize, Option<WireFault>)]) -> bool {
    for (bytes, count, fault) in rows {
        if !is_end(bytes, *count, *fault) {
            return false;
        }
    }
    true
}

#[test]
fn fields_up_to_a_fault(rt: HostRuntime) {
    assert!(rt; are_ends(ENDS));
}

/// Whether these fields are read, and then the end or this fault, again and again.
pub(crate) fn are_fields(bytes: &[u8], wanted: &[Field<'_>], fault: Option<WireFault>) -> bool {
    let mut fields = Fields::new(bytes);
    for field in wanted {
        if fields.next_field() != Ok(Some(*field)) {
            return false;
        }
    }
    are_at_end(&mut fields, fault) && are_at_end(&mut fields, fault)
}

const NUMBER: Field<'static> = Field {
    number: 1,
    payload: Payload::Varint(150),
};

#[test]
fn fault_repeats(rt: HostRuntime) {
    let cut = b"\x08\x96\x01\x0a\x05";
    assert!(rt; are_fields(cut, &[NUMBER], Some(WireFault::Truncated)));
}

/// Whether these messages are read, and then a fault, again and again.
fn are_frames(bytes: &[u8], wanted: &[&[u8]], fault: FrameFault) -> bool {
    let mut frames = Frames::new(bytes);
    for frame in wanted {
        if frames.next_frame() != Ok(Some(*frame)) {
            return false;
        }
    }
    frames.next_frame().err() == Some(fault) && frames.next_frame().err() == Some(fault)
}

#[test]
fn place_of_a_cut_message(rt: HostRuntime) {
    let cut = FrameFault {
        place: 4,
        cause: WireFault::Truncated,
    };
    assert!(rt; are_frames(b"\x02\x61\x62\x00\x03\x63", &[b"ab", b""], cut));
}

const ZIGZAG: &[(i64, u64)] = &[
    (0, 0),
    (-1, 1),
    (1, 2),
    (-2, 3),
    (i64::MAX, u64::MAX - 1),
    (i64::MIN, u64::MAX),
];

/// Whether each value is its number by zigzag, both ways.
fn are_zigzag(rows: &[(i64, u64)]) -> bool {
    for (value, number) in rows {
        if zigzag(*value) != *number || unzigzag(*number) != *value {
            return false;
        }
    }
    true
}

#[test]
fn zigzag_of_small_numbers(rt: HostRuntime) {
    assert!(rt; are_zigzag(ZIGZAG));
}

/// Messages, and the bytes under 1 and 2 where the message holds these two fields alone, one behind the other.
const PAIRS: &[(&[u8], Option<(&[u8], &[u8])>)] = &[
    (b"\x0a\x01a\x12\x02bc", Some((b"a", b"bc"))),
    (b"\x0a\x00\x12\x00", Some((b"", b""))),
    // a tag that isn't the shortest
    (b"\x8a\x00\x01a\x12\x01b", Some((b"a", b"b"))),
    // turned
    (b"\x12\x01b\x0a\x01a", None),
    // one twice, alone and before the other, and behind it
    (b"\x0a\x01a\x0a\x01b", None),
    (b"\x0a\x01a\x0a\x01b\x12\x01c", None),
    (b"\x0a\x01a\x12\x01b\x12\x01c", None),
    // another field behind both and between
    (b"\x0a\x01a\x12\x01b\x18\x05", None),
    (b"\x0a\x01a\x18\x05\x12\x01b", None),
    // a number under 2, one field, none
    (b"\x0a\x01a\x10\x05", None),
    (b"\x0a\x01a", None),
    (b"", None),
    // no field behind both
    (b"\x0a\x01a\x12\x01b\x1a", None),
];

/// Whether each message is the pair beside it, or none.
fn are_pairs(rows: &[(&[u8], Option<(&[u8], &[u8])>)]) -> bool {
    for (message, wanted) in rows {
        if pair_of(message, 1, 2) != *wanted {
            return false;
        }
    }
    true
}

#[test]
fn two_fields_alone(rt: HostRuntime) {
    assert!(rt; are_pairs(PAIRS));
}

/// Messages, and the signed numbers that they hold under 1.
const SINT64S: &[(&[u8], &[i64])] = &[
    // packed and single ones in turn, another field between, an empty part
    (
        b"\x0a\x02\x02\x01\x08\x04\x10\x07\x0a\x00\x0a\x03\xac\x02\x00\x08\x03",
        &[1, -1, 2, 150, 0, -2],
    ),
    // a packed part behind another one
    (b"\x0a\x02\x02\x04\x0a\x01\x06", &[1, 2, 3]),
    // the least one, behind four bytes under the same number
    (
        b"\x0d0000\x08\xff\xff\xff\xff\xff\xff\xff\xff\xff\x01",
        &[i64::MIN],
    ),
    // under another number alone, and none
    (b"\x12\x02\x02\x01\x10\x04", &[]),
    (b"", &[]),
];

/// Whether a message holds just these numbers under 1.
fn holds_sint64s(message: &[u8], wanted: &[i64]) -> bool {
    let mut numbers = Sint64s::new(message, 1);
    for number in wanted {
        if numbers.next() != Some(*number) {
            return false;
        }
    }
    numbers.next().is_none()
}

/// Whether each message holds just the numbers beside it.
fn hold_sint64s(rows: &[(&[u8], &[i64])]) -> bool {
    for (message, wanted) in rows {
        if !holds_sint64s(message, wanted) {
            return false;
        }
    }
    true
}

#[test]
fn packed_and_single_numbers(rt: HostRuntime) {
    assert!(rt; hold_sint64s(SINT64S));
}
