//! The ranges, and the codes of errors.

use bgp_values::{
    CEASE, FSM_ERROR, HOLD_TIMER_EXPIRED, MESSAGE_HEADER_ERROR, OPEN_MESSAGE_ERROR,
    UPDATE_MESSAGE_ERROR, Width, is_asn, is_hold_time, is_unicast,
};

// What a message may say.
enum Value {
    // A number of a speaker, where numbers have two octets or four.
    Number(Width, u64),
    HoldTime(u16),
    // The address of a host.
    Address(u32),
}

// Values, and whether they are in range.
#[rattlefmt::skip]
static VALUES: [(Value, bool); 22] = [
    // 0 is no number of a speaker (RFC 7607); two octets hold 65535, and four 4294967295 (RFC 6793).
    (Value::Number(Width::Two, 0), false),
    (Value::Number(Width::Four, 0), false),
    (Value::Number(Width::Two, 1), true),
    (Value::Number(Width::Four, 1), true),
    (Value::Number(Width::Two, 65_535), true),
    (Value::Number(Width::Four, 65_535), true),
    (Value::Number(Width::Two, 65_536), false),
    (Value::Number(Width::Four, 65_536), true),
    (Value::Number(Width::Two, 4_294_967_295), false),
    (Value::Number(Width::Four, 4_294_967_295), true),
    (Value::Number(Width::Two, 4_294_967_296), false),
    (Value::Number(Width::Four, 4_294_967_296), false),
    // A hold time is none, or three seconds or more.
    (Value::HoldTime(0), true),
    (Value::HoldTime(1), false),
    (Value::HoldTime(2), false),
    (Value::HoldTime(3), true),
    (Value::HoldTime(90), true),
    (Value::HoldTime(65_535), true),
    // A host is between networks and groups: 0.255.255.255, 1.0.0.0, 223.255.255.255 and 224.0.0.0.
    (Value::Address(0x00ff_ffff), false),
    (Value::Address(0x0100_0000), true),
    (Value::Address(0xdfff_ffff), true),
    (Value::Address(0xe000_0000), false),
];

fn is_in_range(value: &Value) -> bool {
    match value {
        Value::Number(width, number) => is_asn(*width, *number),
        Value::HoldTime(seconds) => is_hold_time(*seconds),
        Value::Address(address) => is_unicast(*address),
    }
}

// Section 4.5's table of error codes, in its order.
static ERROR_CODES: [u8; 6] = [
    MESSAGE_HEADER_ERROR,
    OPEN_MESSAGE_ERROR,
    UPDATE_MESSAGE_ERROR,
    HOLD_TIMER_EXPIRED,
    FSM_ERROR,
    CEASE,
];

#[test]
fn values_are_in_range_and_codes_in_order(rt: HostRuntime) {
    for (i, (value, can)) in VALUES.iter().enumerate() {
        assert!(rt; is_in_range(value) == *can, "value {i}");
    }
    assert!(rt; ERROR_CODES == [1, 2, 3, 4, 5, 6]);
}
