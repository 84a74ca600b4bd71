//! Links over UDP on this machine.

use crate::frame::FRAME;
use crate::same::same;
use outside::{Failed, Link, RawFrame, Received};
use std::net::{Ipv4Addr, Net, UdpSocket};
use std::test::Fail;
use udp_link::UdpLink;

/// The first base at which the ports of these links are free, and the links of the nodes 1, 2 and 125.
fn links<R: Net>(rt: &R) -> Result<(u16, UdpLink, UdpLink, UdpLink), Failed> {
    for number in 0..100 {
        let base = 5000 + 200 * number;
        if let (Ok(one), Ok(two), Ok(last)) = (
            UdpLink::open(rt, base, 1),
            UdpLink::open(rt, base, 2),
            UdpLink::open(rt, base, 125),
        ) {
            return Ok((base, one, two, last));
        }
    }
    Err(Failed)
}

/// The next item that comes.
fn next(link: &mut UdpLink) -> Result<Received, Failed> {
    for _ in 0..1_000_000 {
        let received = link.recv()?;
        if received != Received::Nothing {
            return Ok(received);
        }
    }
    Ok(Received::Nothing)
}

#[test]
fn a_frame_goes_to_each_other_node(rt: HostRuntime) -> Result<(), Fail> {
    let (_base, mut one, mut two, mut last) = links(&rt)?;
    assert!(rt; same(&two.recv(), &Ok(Received::Nothing)));
    assert!(rt; one.send(&FRAME).is_ok());
    assert!(rt; same(&next(&mut two), &Ok(Received::Frame(FRAME))));
    assert!(rt; same(&next(&mut last), &Ok(Received::Frame(FRAME))));
    assert!(rt; last.send(&FRAME).is_ok());
    assert!(rt; same(&next(&mut one), &Ok(Received::Frame(FRAME))));
    assert!(rt; same(&next(&mut two), &Ok(Received::Frame(FRAME))));
    assert!(rt; same(&one.recv(), &Ok(Received::Nothing)));
    assert!(rt; same(&two.recv(), &Ok(Received::Nothing)));
    assert!(rt; same(&last.recv(), &Ok(Received::Nothing)));
    Ok(())
}

#[test]
fn a_link_receives_on_this_machine_alone(rt: HostRuntime) -> Result<(), Fail> {
    let (base, _one, _two, _last) = links(&rt)?;
    for id in [1, 2, 125] {
        let port = base.saturating_add(id);
        assert!(rt; UdpSocket::bind(&rt, (Ipv4Addr::LOCALHOST, port)).is_err());
        UdpSocket::bind(&rt, (Ipv4Addr::new(127, 0, 0, 2), port))?;
    }
    Ok(())
}

#[test]
fn another_datagram_is_junk(rt: HostRuntime) -> Result<(), Fail> {
    let (base, _one, mut two, _last) = links(&rt)?;
    let third = UdpSocket::bind(&rt, (Ipv4Addr::LOCALHOST, 0))?;
    let to = (Ipv4Addr::LOCALHOST, base.saturating_add(2));
    for len in [0, 3, 4, 5, 12, 14, 40] {
        let sent = third.send_to(&[8; 40][..len], to)?;
        assert_eq!(rt; sent, len);
        assert!(rt; same(&next(&mut two), &Ok(Received::Junk)));
    }
    let wide = [0x20, 0, 0, 0, 1, 0xc0];
    assert_eq!(rt; third.send_to(&wide, to)?, wide.len());
    assert!(rt; same(&next(&mut two), &Ok(Received::Junk)));
    assert_eq!(rt; third.send_to(&[8; 13], to)?, 13);
    let eights = RawFrame {
        id: 0x0808_0808,
        len: 8,
        bytes: [8; 8],
    };
    assert!(rt; same(&next(&mut two), &Ok(Received::Frame(eights))));
    assert!(rt; same(&two.recv(), &Ok(Received::Nothing)));
    Ok(())
}

/// The datagram of the frame with these eights.
fn eights(id: [u8; 4]) -> [u8; 13] {
    let mut datagram = [8; 13];
    datagram[..4].copy_from_slice(&id);
    datagram
}

#[test]
fn a_strict_link_looks_at_the_sender(rt: HostRuntime) -> Result<(), Fail> {
    let (base, mut one, two, _last) = links(&rt)?;
    drop(two);
    let mut two = UdpLink::open_strict(&rt, base, 2, &[2])?;
    let to = (Ipv4Addr::LOCALHOST, base.saturating_add(2));
    assert!(rt; one.send(&FRAME).is_ok());
    assert!(rt; same(&next(&mut two), &Ok(Received::Frame(FRAME))));
    // The identifier ends with the source: node 1, none, node 2.
    let first = eights([0x1e, 1, 0x55, 1]);
    let anonymous = eights([0x1e, 1, 0x55, 0]);
    let own = eights([0x1e, 1, 0x55, 2]);
    let stranger = UdpSocket::bind(&rt, (Ipv4Addr::LOCALHOST, 0))?;
    stranger.send_to(&first, to)?;
    assert!(rt; same(&next(&mut two), &Ok(Received::Junk)));
    stranger.send_to(&anonymous, to)?;
    assert!(rt; matches!(next(&mut two), Ok(Received::Frame(_))));
    let bridge = UdpSocket::bind(&rt, (Ipv4Addr::LOCALHOST, base.saturating_add(119)))?;
    bridge.send_to(&first, to)?;
    assert!(rt; matches!(next(&mut two), Ok(Received::Frame(_))));
    bridge.send_to(&own, to)?;
    assert!(rt; same(&next(&mut two), &Ok(Received::Junk)));
    let elsewhere = UdpSocket::bind(&rt, (Ipv4Addr::new(127, 0, 0, 2), base.saturating_add(1)))?;
    elsewhere.send_to(&first, to)?;
    assert!(rt; same(&next(&mut two), &Ok(Received::Junk)));
    Ok(())
}

#[test]
fn a_port_without_a_listener_is_no_failure(rt: HostRuntime) -> Result<(), Fail> {
    let (_base, mut one, two, last) = links(&rt)?;
    drop(two);
    drop(last);
    for _ in 0..3 {
        assert!(rt; one.send(&FRAME).is_ok());
        assert!(rt; same(&one.recv(), &Ok(Received::Nothing)));
    }
    Ok(())
}

#[test]
fn a_port_that_is_taken_or_none_makes_no_link(rt: HostRuntime) -> Result<(), Fail> {
    let (base, _one, _two, _last) = links(&rt)?;
    assert!(rt; UdpLink::open(&rt, base, 2).is_err());
    assert!(rt; UdpLink::open(&rt, 65_411, 125).is_err());
    Ok(())
}
