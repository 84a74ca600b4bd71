//! The program `allocator`: it makes the real objects of the outside, and [`run`] does the rest.
//!
//! The source is standard input, the sink is standard output, the clock is the system's, and the exit code is that of
//! the status. For the words of `node` each member has its link over UDP, and its disk in the file `alloc-<id>.store`.
//! The words of `can` are those of `node` without a base, and `can <members> <id>` takes the most turns: standard input
//! is a raw CAN socket then (`can_link`), and the links of all members are on it; the environment may tell the bit rate
//! of the bus ([`told_bit_rate`]). Where the members are told a list of them, links are strict, let newcomers in slowly
//! behind a burst ([`NewcomerLink`]), take no term that is far ahead ([`TermLink`]), send Allocations apart
//! ([`SpacedLink`]) and listen for strangers ([`ToldLink`]). A missing file is refused then, and so is one that others
//! may write, or without a version, as one of zeros ([`look_for_stores`]), or whose log has an ID of the list
//! ([`told_of_listed`]). Their stores are watched ([`WatchedDisk`]), and a process whose members ran before rests first
//! ([`Told::rest`]). Where they are told a number, a missing file is made, and nothing rests. The words of `new` have the
//! disks alone, in files that are made for them: where one is there already, or `run` does not come to its end, none of
//! those that were made stays. Those of `replace` have the disk of the lost member alone so, and those of the others as
//! `audit` has them. The words of `audit` have the disks alone, in files that are there, and only read them. Where one of
//! these cannot be opened the exit code is 12. A standard stream that is closed stays so for `run`: its descriptor never
//! becomes that of a link or a disk. A word that is not UTF-8 is none that the program reads.
#![tactic(auto)]

ghost use Rattle.std.specs.Prelude.{◌≡◌, ◌≤◌, ℕ, length, IfErr, IfOk, OnOk};
ghost use Rattle.can_frame.specs.Sizes.{most_members};
ghost use Rattle.listed_entry.specs.Listed.{IsFoundIn, IsInNone};
ghost use Rattle.allocator.specs.declared.refusal.Refusal.TheVariants.{Listed, Stranger};
ghost use Rattle.store_audit.specs.Reads.{AllStay};

mod bit_rate;
mod can_words;
mod opened;
mod refusal;
mod stranger;

use crate::bit_rate::told_bit_rate;
use crate::can_words::words_of_node;
use crate::opened::{
    held_streams, known_stores, link_of, listening_link, made_stores, old_stores, stores_but_lost,
    stores_of, take_away, watched_stores,
};
use crate::refusal::Refusal;
use crate::stranger::write_stranger;
use allocator_app::{Plan, Status, Told, plan, run};
use can_link::{CanBus, CanLink, RawSocket};
use cmd_new::write_end;
use disk_model::{Disk, FileDisk};
use host_pace::{PacedClock, TimelyLink};
use listed_entry::{find_listed, write_listed};
use outside::{Clock, Link, StdClock, StdSink, StdSource};
use std::cell::{Cell, RefCell};
use std::process::ExitCode;
use std::time::Duration;
use std::{env, thread};
use told_link::ToldLink;
use udp_link::UdpLink;

/// The descriptor of the socket for the words of `can`.
const SOCKET: i32 = 0;

fn main(rt: HostRuntime) -> ExitCode {
    match answer(&rt) {
        Ok(status) => ExitCode::from(status.code()),
        Err(refusal) => ExitCode::from(refusal.code()),
    }
}

/// Opens what the words ask for, and does what they say.
fn answer(rt: &HostRuntime) -> Result<Status, Refusal> {
    let words = read_words(rt)?;
    if words.first().is_some_and(|word| word.as_str() == "can") {
        let words = words_of_node(rt.alloc(), &words)?;
        return match plan(&words) {
            Some(Plan::Node { told, ids, .. }) => run_on_can(rt, &words, &told, &ids),
            _ => Ok(Status::Usage),
        };
    }
    match plan(&words) {
        Some(
            Plan::Node {
                told,
                base,
                ids,
                ..
            },
        ) => run_over_udp(rt, &words, &told, base, &ids),
        Some(Plan::New { ids, .. }) => run_on_new_stores(rt, &words, &ids),
        Some(Plan::Replace { lost, ids }) => run_on_lost_store(rt, &words, lost, &ids),
        Some(Plan::Audit { ids }) => run_on_old_stores(rt, &words, &ids),
        _ => Ok(follow::<UdpLink, FileDisk>(rt, &words, &mut [], &mut [], &Cell::new(0))),
    }
}

/// The words that the program was started with, behind its name.
fn read_words(rt: &HostRuntime) -> Result<Vec<String>, Refusal> {
    let mut words = Vec::new(rt.alloc());
    for word in env::args(rt)?.skip(1) {
        words.push(word)?;
    }
    Ok(words)
}

/// Runs these members, each with a link over UDP.
fn run_over_udp(
    rt: &HostRuntime,
    words: &[String],
    told: &Told,
    base: u16,
    ids: &[u8],
) -> Result<Status, Refusal>
    requires { length ids.now ≤ most_members }
{
    let _streams = held_streams(rt)?;
    let idle = Cell::new(0);
    let mut links = Vec::new(rt.alloc());
    for id in ids {
        let link = link_of(rt, told, base, *id, ids)?;
        let link = TimelyLink::new(link, StdClock::new(rt), &idle);
        links.push(listening_link(rt, link, told, *id)?)?;
    }
    let status = run_members(rt, words, told, ids, &mut links, &idle)?;
    told_of_strangers(rt, status, &links)
}

/// Runs these members, with their links on the CAN bus of the socket, until the echo of a frame is late: later where the
/// environment tells that the bus is slow.
fn run_on_can(
    rt: &HostRuntime,
    words: &[String],
    told: &Told,
    ids: &[u8],
) -> Result<Status, Refusal> {
    let _streams = held_streams(rt)?;
    let idle = Cell::new(0);
    let bus = CanBus::new(RawSocket::new(SOCKET), StdClock::new(rt), told_bit_rate(rt));
    let bus = RefCell::new(bus);
    let mut links = Vec::new(rt.alloc());
    for (place, id) in ids.iter().enumerate() {
        let link = TimelyLink::new(CanLink::new(&bus, place), StdClock::new(rt), &idle);
        links.push(listening_link(rt, link, told, *id)?)?;
    }
    let status = run_members(rt, words, told, ids, &mut links, &idle)?;
    let status = told_of_strangers(rt, status, &links)?;
    let is_late = match bus.try_borrow() {
        Ok(bus) => bus.is_late(),
        Err(_) => false,
    };
    match status {
        Status::LinkFault(_) if is_late => Err(Refusal::LateEcho),
        _ => Ok(status),
    }
}

/// How a run over these links ended. Where a link failed since it heard a stranger, the line of that is written behind
/// the report; whether it can be written or not, the member is not to be started again.
fn told_of_strangers<L: Link, C: Clock>(
    rt: &HostRuntime,
    status: Status,
    links: &[ToldLink<L, C>],
) -> Result<Status, Refusal>
    ensures status { IfOk result (λ ended. ended ≡ status) }
    ensures stranger { IfErr result (λ refusal. refusal ≡ Stranger) }
{
    let Status::LinkFault(_) = status else {
        return Ok(status);
    };
    for link in links {
        if let Some(identifier) = link.stranger() {
            let _ = write_stranger(&mut StdSink::new(rt.stdout()), link.member(), identifier);
            return Err(Refusal::Stranger);
        }
    }
    Ok(status)
}

/// Runs these members over links that are open, once their stores are open and the process has rested. Those that are
/// told who the members are do not run where one of them has no store on its disk: the one line of that is written.
fn run_members<L: Link>(
    rt: &HostRuntime,
    words: &[String],
    told: &Told,
    ids: &[u8],
    links: &mut [L],
    idle: &Cell<usize>,
) -> Result<Status, Refusal> {
    match told {
        // A missing store is made of zeros then, so zeros are a new one.
        Told::Size(_) => {
            let mut stores = stores_of(rt, ids)?;
            Ok(rest_and_follow(rt, words, told, false, links, &mut stores, idle))
        }
        Told::Members(members) => {
            let mut stores = watched_stores(rt, ids)?;
            told_of_listed(rt, members, ids, &mut stores)?;
            match known_stores(ids, &mut stores) {
                Ok(used) => Ok(rest_and_follow(rt, words, told, used, links, &mut stores, idle)),
                Err(status) => Ok(write_end(status, &[], &mut StdSink::new(rt.stdout()))),
            }
        }
    }
}

/// Refuses stores of these members, one of which has an entry with an ID of the list of the cluster: the line of that is
/// written, whether it can be or not.
fn told_of_listed<D: Disk>(
    rt: &HostRuntime,
    members: &[u8],
    ids: &[u8],
    stores: &mut [Option<D>],
) -> Result<(), Refusal>
    ensures none { OnOk result (IsInNone D.Disk members.now ids.now stores.old stores.new) }
    ensures listed { IfErr result (λ refusal. (refusal ≡ Listed) × ((id : ℕ) × (node : ℕ)
        × IsFoundIn D.Disk members.now ids.now stores.old stores.new id node)) }
    ensures stay { AllStay D.Disk stores.old stores.new }
{
    match find_listed(members, ids, stores) {
        Some(listed) => {
            let _ = write_listed(&mut StdSink::new(rt.stdout()), listed);
            Err(Refusal::Listed)
        }
        None => Ok(()),
    }
}

/// Runs members, one of which ran before or none, once the process has rested for that.
fn rest_and_follow<L: Link, D: Disk>(
    rt: &HostRuntime,
    words: &[String],
    told: &Told,
    ran_before: bool,
    links: &mut [L],
    stores: &mut [Option<D>],
    idle: &Cell<usize>,
) -> Status {
    thread::sleep(rt, Duration::from_millis(told.rest(ran_before)));
    follow(rt, words, links, stores, idle)
}

/// Makes the stores of these members. None stays where one was not made, or `run` does not come to its end.
fn run_on_new_stores(rt: &HostRuntime, words: &[String], ids: &[u8]) -> Result<Status, Refusal> {
    let _streams = held_streams(rt)?;
    let mut stores = Vec::new(rt.alloc());
    let mut paths = Vec::new(rt.alloc());
    let outcome = match made_stores(rt, ids, &mut stores, &mut paths) {
        Ok(()) => Ok(follow::<UdpLink, FileDisk>(rt, words, &mut [], &mut stores, &Cell::new(0))),
        Err(refusal) => Err(refusal),
    };
    if outcome != Ok(Status::Done) {
        take_away(rt, &paths);
    }
    outcome
}

/// Makes the store of the lost one of these members from those of the others. It does not stay where `run` does not come
/// to its end.
fn run_on_lost_store(
    rt: &HostRuntime,
    words: &[String],
    lost: u8,
    ids: &[u8],
) -> Result<Status, Refusal> {
    let _streams = held_streams(rt)?;
    let mut paths = Vec::new(rt.alloc());
    let outcome = match stores_but_lost(rt, lost, ids, &mut paths) {
        Ok(mut stores) => Ok(follow::<UdpLink, FileDisk>(
            rt,
            words,
            &mut [],
            &mut stores,
            &Cell::new(0),
        )),
        Err(refusal) => Err(refusal),
    };
    if outcome != Ok(Status::Done) {
        take_away(rt, &paths);
    }
    outcome
}

/// Compares the stores of these members.
fn run_on_old_stores(rt: &HostRuntime, words: &[String], ids: &[u8]) -> Result<Status, Refusal> {
    let _streams = held_streams(rt)?;
    let mut stores = old_stores(rt, ids)?;
    Ok(follow::<UdpLink, FileDisk>(rt, words, &mut [], &mut stores, &Cell::new(0)))
}

/// Does what the words say with these links and disks, and the standard streams. The clock sleeps where no link
/// has anything.
fn follow<L: Link, D: Disk>(
    rt: &HostRuntime,
    words: &[String],
    links: &mut [L],
    disks: &mut [Option<D>],
    idle: &Cell<usize>,
) -> Status {
    let mut source = StdSource::new(rt.stdin());
    let mut sink = StdSink::new(rt.stdout());
    let mut clock = PacedClock::new(StdClock::new(rt), rt, links.len(), idle);
    run(
        rt.alloc(),
        words,
        &mut source,
        &mut sink,
        links,
        disks,
        &mut clock,
    )
}
