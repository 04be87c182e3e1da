//! Runs of ones and Markers, against one octet at a time.

ghost use Rattle.std.specs.Prelude.{◌≤◌};

use marker_lanes::{is_marker, ones_run};
use std::process::Abort;

// One octet at a time.
fn plain_run(octets: &[u8]) -> usize {
    for (i, octet) in octets.iter().enumerate() {
        if *octet != 0xff {
            return i;
        }
    }
    octets.len()
}

fn is_plain_marker(octets: &[u8; 16]) -> bool {
    let mut are_ones = true;
    for octet in octets {
        are_ones = are_ones & (*octet == 0xff);
    }
    are_ones
}

// A run of ones that may be cut short by one octet.
fn ones_with(octet: u8, at: usize) -> [u8; 100] {
    let mut octets = [0xff; 100];
    if at < 100 {
        octets[at] = octet;
    }
    octets
}

static FEW_ONES: [(&[u8], usize); 3] = [(&[], 0), (&[0xff; 17], 17), (&[0xff, 0xff, 0, 0xff], 2)];

// A run of this length, with one other octet at each place.
fn ends_at_each_place(rt: &impl Abort, len: usize)
    requires { len ≤ 100 }
{
    for at in 0..len {
        let octets = ones_with(0x7f, at);
        assert!(rt; ones_run(&octets[..len]) == at);
        assert!(rt; plain_run(&octets[..len]) == at);
    }
}

/// Each length 0 to 100, with one other octet at each place.
#[test]
fn a_run_ends_at_the_first_other_octet(rt: HostRuntime) {
    for (i, (octets, want)) in FEW_ONES.iter().enumerate() {
        assert!(rt; ones_run(octets) == *want, "row {i}");
    }
    let whole = [0xff; 100];
    for len in 0..=100usize {
        assert!(rt; ones_run(&whole[..len]) == len);
        ends_at_each_place(&rt, len);
    }
}

#[test]
fn sixteen_ones_are_a_marker(rt: HostRuntime) {
    assert!(rt; is_marker(&[0xff; 16]));
    assert!(rt; is_plain_marker(&[0xff; 16]));
    for at in 0..16usize {
        let mut octets = [0xff; 16];
        octets[at] = 0xfe;
        assert!(rt; !is_marker(&octets), "octet {at}");
        assert!(rt; !is_plain_marker(&octets), "octet {at}");
    }
}
