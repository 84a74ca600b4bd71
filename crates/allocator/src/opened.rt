ghost use Rattle.std.specs.Prelude.{◌≡◌, ◌≤◌, ◌↔◌, [], length, true, IfErr, IfOk, IfSome, IsSome, Ok};
ghost use Rattle.can_frame.specs.Sizes.{most_members};
ghost use Rattle.allocator_app.specs.Told.{list_of};
ghost use Rattle.cmd_new.specs.Looks.{HaveStores};
ghost use Rattle.cmd_new.specs.Made.{HasLine};

use crate::refusal::Refusal;
use allocator_app::{Status, Told};
use cmd_new::{look_for_stores, mark_new_stores};
use disk_model::{Disk, FileDisk};
use newcomer_link::NewcomerLink;
use outside::{Failed, Link, StdClock};
use spaced_link::SpacedLink;
use std::alloc::{AllocError, Global};
use std::fs;
use std::fs::{File, Permissions};
use std::os::unix::fs::PermissionsExt;
use std::rt::Files;
use told_link::{TermLink, ToldLink};
use udp_link::UdpLink;
use watched_disk::{FileAtPath, WatchedDisk, open_watched};

/// The store of a member that is told a list of them.
type WatchedStore<'a> = WatchedDisk<FileDisk, FileAtPath<'a, HostRuntime>>;

/// The link of a member over another one.
type ListeningLink<'a, L> = ToldLink<
    SpacedLink<TermLink<StoreLink<'a, L>, StdClock<&'a HostRuntime>>, StdClock<&'a HostRuntime>>,
    StdClock<&'a HostRuntime>,
>;

/// The link that reads the store of its member.
type StoreLink<'a, L> = NewcomerLink<L, StdClock<&'a HostRuntime>, FileDisk>;

/// The descriptors of the standard streams are those below this.
const STREAMS: usize = 3;

/// The mode of a new store: its user may read and write it, and nobody else.
const FOR_ITS_USER: u32 = 0o600;

/// Files that take the descriptors of those standard streams that are closed, as long as they live: an opened file
/// gets the lowest free descriptor. They are only read, so a report for a closed output still fails.
pub fn held_streams(rt: &HostRuntime) -> Result<Vec<File>, Refusal> {
    let mut streams = Vec::new(rt.alloc());
    for _ in 0..STREAMS {
        let Ok(stream) = File::open(rt, "/dev/null") else {
            return Err(Refusal::NotOpened);
        };
        streams.push(stream)?;
    }
    Ok(streams)
}

/// The link over UDP of a member that runs with these in one process. Where the members are told a list of them, it is
/// strict.
pub fn link_of(
    rt: &HostRuntime,
    told: &Told,
    base: u16,
    id: u8,
    here: &[u8],
) -> Result<UdpLink, Refusal>
    requires { length here.now ≤ most_members }
    ensures base { IfOk result (λ link. link.base ≡ base) }
    ensures id { IfOk result (λ link. link.id ≡ id) }
    ensures strict { (list_of told.now ≡ [] → ⊥) → IfOk result (λ link. IsSome link.here) }
    ensures here { IfOk result (λ link. IfSome link.here (λ nodes. nodes.items ≡ here.now)) }
{
    match told {
        Told::Size(_) => or_refusal(UdpLink::open(rt, base, id)),
        Told::Members(_) => or_refusal(UdpLink::open_strict(rt, base, id, here)),
    }
}

/// The link, where it was opened.
fn or_refusal(opened: Result<UdpLink, Failed>) -> Result<UdpLink, Refusal>
    ensures link { IfOk result (λ link. opened ≡ Ok link) }
{
    match opened {
        Ok(link) => Ok(link),
        Err(Failed) => Err(Refusal::NotOpened),
    }
}

/// The link of a member over this one. Where the member is told the list of its cluster, newcomers come slowly behind a
/// burst, it takes no term that is far ahead, sends Allocations apart, and listens for strangers. Its store is there
/// already then.
pub fn listening_link<'a, L: Link + Drop>(
    rt: &'a HostRuntime,
    link: L,
    told: &Told,
    id: u8,
) -> Result<ListeningLink<'a, L>, Refusal>
    ensures link { IfOk result (λ over. over.link.link.link.link ≡ link) }
    ensures me { IfOk result (λ over. (over.me ≡ id) × (over.link.link.me ≡ id)) }
    ensures list { IfOk result (λ over. (over.ids.items ≡ list_of told.now)
        × (over.link.link.ids.items ≡ list_of told.now) × (over.link.link.link.ids.items ≡ list_of told.now)) }
    ensures is_told { IfOk result (λ over. (over.link.is_told ≡ true) ↔ (list_of told.now ≡ [] → ⊥)) }
    ensures store { IfOk result (λ over. (list_of told.now ≡ [] → ⊥) → IsSome over.link.link.link.place) }
{
    match told {
        Told::Size(_) => Ok(over(rt, link, None, id, &[])),
        Told::Members(members) => {
            let store = old_store(rt, id)?;
            Ok(over(rt, link, Some(store), id, members))
        }
    }
}

/// The same, for a member that is told this list. An empty one stands for none.
fn over<'a, L: Link>(
    rt: &'a HostRuntime,
    link: L,
    store: Option<FileDisk>,
    id: u8,
    list: &[u8],
) -> ListeningLink<'a, L>
    requires { length list.now ≤ most_members }
    ensures link { result.link.link.link.link ≡ link }
    ensures me { (result.me ≡ id) × (result.link.link.me ≡ id) }
    ensures list { (result.ids.items ≡ list.now) × (result.link.link.ids.items ≡ list.now)
        × (result.link.link.link.ids.items ≡ list.now) }
    ensures is_told { (result.link.is_told ≡ true) ↔ (list.now ≡ [] → ⊥) }
    ensures store { result.link.link.link.place ≡ store }
{
    let link = NewcomerLink::new(link, StdClock::new(rt), store, list);
    let link = TermLink::new(link, StdClock::new(rt), id, list);
    let link = SpacedLink::new(link, StdClock::new(rt), !list.is_empty());
    ToldLink::new(link, StdClock::new(rt), id, list)
}

/// The stores of these members, each in its file. A missing file is made.
pub fn stores_of(rt: &HostRuntime, ids: &[u8]) -> Result<Vec<Option<FileDisk>>, Refusal> {
    let mut stores = Vec::new(rt.alloc());
    for id in ids {
        match FileDisk::open(rt, path_of(rt.alloc(), *id)?.as_str()) {
            Ok(disk) => stores.push(Some(disk))?,
            Err(_) => return Err(Refusal::NotOpened),
        }
    }
    Ok(stores)
}

/// The stores of these members, which are told a list of them. Each file is there already, and nobody else may write it;
/// before each sync it is looked for.
pub fn watched_stores<'a>(
    rt: &'a HostRuntime,
    ids: &[u8],
) -> Result<Vec<Option<WatchedStore<'a>>>, Refusal> {
    let mut stores = Vec::new(rt.alloc());
    for id in ids {
        match open_watched(rt, path_of(rt.alloc(), *id)?) {
            Ok(disk) => stores.push(Some(disk))?,
            Err(_) => return Err(Refusal::NotOpened),
        }
    }
    Ok(stores)
}

/// Whether one of these stores, of members that are told a list of them, was used before; those that are new are marked
/// as used. Where one is none, or a disk fails, it is the status that says so.
pub fn known_stores<D: Disk>(ids: &[u8], stores: &mut [Option<D>]) -> Result<bool, Status>
    ensures used { IfOk result (λ used. HaveStores D.Disk ids.now stores.old used) }
    ensures line { IfErr result (λ status. HasLine status) }
{
    let used = look_for_stores(ids, stores)?;
    mark_new_stores(ids, stores)?;
    Ok(used)
}

/// The stores of these members, in files that are there already, to be read.
pub fn old_stores(rt: &HostRuntime, ids: &[u8]) -> Result<Vec<Option<FileDisk>>, Refusal> {
    let mut stores = Vec::new(rt.alloc());
    for id in ids {
        stores.push(Some(old_store(rt, *id)?))?;
    }
    Ok(stores)
}

/// The store of this member, in a file that is there already, to be read.
fn old_store(rt: &HostRuntime, id: u8) -> Result<FileDisk, Refusal> {
    match FileDisk::open_old(rt, path_of(rt.alloc(), id)?.as_str()) {
        Ok(disk) => Ok(disk),
        Err(_) => Err(Refusal::NotOpened),
    }
}

/// The stores of these members: that of the lost one in a file that is made for it, whose path is put behind the others,
/// and those of the others in files that are there already, to be read.
pub fn stores_but_lost(
    rt: &HostRuntime,
    lost: u8,
    ids: &[u8],
    paths: &mut Vec<String>,
) -> Result<Vec<Option<FileDisk>>, Refusal> {
    let mut stores = Vec::new(rt.alloc());
    for id in ids {
        if *id == lost {
            made_stores(rt, &[lost], &mut stores, paths)?;
        } else {
            stores.push(Some(old_store(rt, *id)?))?;
        }
    }
    Ok(stores)
}

/// Makes a file for the store of each of these members, for their user alone, up to the first that cannot be made, and
/// puts those that are made, and their paths, behind the others.
pub fn made_stores(
    rt: &HostRuntime,
    ids: &[u8],
    stores: &mut Vec<Option<FileDisk>>,
    paths: &mut Vec<String>,
) -> Result<(), Refusal> {
    for id in ids {
        let path = path_of(rt.alloc(), *id)?;
        let Ok(disk) = FileDisk::make(rt, path.as_str()) else {
            return Err(Refusal::NotOpened);
        };
        // Where the file system has no such mode, an opening looks at the one that it has.
        let _ = fs::set_permissions(rt, path.as_str(), Permissions::from_mode(FOR_ITS_USER));
        paths.push(path)?;
        stores.push(Some(disk))?;
    }
    Ok(())
}

/// Takes these files away, as far as they can be.
pub fn take_away<R: Files>(rt: &R, paths: &[String]) {
    for path in paths {
        let _ = fs::remove_file(rt, path.as_str());
    }
}

/// The file in which this member has its store.
fn path_of(alloc: Global, id: u8) -> Result<String, AllocError> {
    format!(in alloc; "alloc-{}.store", id)
}
