//! Calls each law once.

#[test]
fn each_law_holds_at_a_type() {
    bgp_codec::laws::one_message_or_fault();
    bgp_codec::laws::written_is_spelt();
    bgp_codec::laws::written_is_read();
    bgp_codec::laws::a_peers_writing_is_read();
    bgp_codec::laws::spelt_is_writable();
    bgp_codec::laws::header_is_its_front();
    bgp_codec::laws::header_fault_is_short();
    bgp_codec::laws::fault_fits_a_message();
    bgp_framing::laws::splits_once();
    bgp_framing::laws::splits_in_pieces();
    bgp_framing::laws::splits_behind_a_frame();
    bgp_framing::laws::splits_into_nothing();
    bgp_framing::laws::rest_is();
    bgp_framing::laws::next_is_first();
    bgp_framing::laws::next_is_one();
}
