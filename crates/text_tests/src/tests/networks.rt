//! The network that a text spells, and the parts of a text.

use net_text::{read_network, split_at_section};
use ranked_policy::Network;
use std::process::Abort;
use std::test::Fail;

fn has_settings(network: &Network, hold: u16, restart: u16, cut: usize, pipe: usize) -> bool {
    let settings = network.settings();
    settings.hold == hold
        && settings.restart == restart
        && settings.cut == cut
        && settings.pipe == pipe
}

fn has_counts(network: &Network, routers: usize, links: usize, origins: usize) -> bool {
    network.routers().len() == routers
        && network.links().len() == links
        && network.origins().len() == origins
}

fn a_network_as_it_is_read_in(rt: &impl Abort, network: &Network) {
    assert!(rt; has_settings(network, 0, 5, 4096, 1));
    assert!(rt; has_counts(network, 2, 1, 1));
}

#[test]
fn a_network_as_it_is_read(rt: HostRuntime) -> Result<(), Fail> {
    let text: &[u8] =
        b"pipe 1\nrouter 9 10.0.0.9\nhold 0\nrouter 3 10.0.0.3\nlink 9 3\norigin 9 10.1.2.3/16\nrank 3 10.0.0.0/8 3-9 3\nrestart 5\n";
    match read_network(rt.alloc(), text) {
        Ok(network) => a_network_as_it_is_read_in(&rt, &network),
        Err(_) => return Err("refused".into()),
    }
    Ok(())
}

#[test]
fn a_text_is_parted_at_the_line_of_its_section(rt: HostRuntime) -> Result<(), Fail> {
    let split = split_at_section(b"a\r\n schedule \nb\nschedule", b"schedule");
    assert!(rt; split.front == b"a\r\n".as_slice());
    assert!(rt; split.behind == b"b\nschedule".as_slice());
    assert!(rt; split.before == 2);
    let split = split_at_section(b"a\nschedule x\n", b"schedule");
    assert!(rt; split.behind == b"".as_slice());
    assert!(rt; split.before == 2);
    Ok(())
}
