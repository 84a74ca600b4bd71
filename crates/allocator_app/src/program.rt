ghost use Rattle.std.specs.Prelude.{◌≡◌, ◌≤◌, ◌↔◌, ◌⊎◌, ℕ, Bool, List, [], Some, length, map, string_bytes, IsTrue};
ghost use Rattle.can_logs.specs.declared.form.Form.{Form};
ghost use Rattle.cmd_decode.specs.Ends.{Decodes};
ghost use Rattle.cmd_logs.specs.Converted.{Converts};
ghost use Rattle.cmd_logs.specs.Watched.{Watches};
ghost use Rattle.outside.specs.Faults.{Rose};
ghost use Rattle.bus_rows.specs.declared.row.Row.{Row};
ghost use Rattle.replay_text.specs.Lines.{ReadsRows};
ghost use Rattle.cmd_new.specs.Made.{MakesStores};
ghost use Rattle.cmd_replace.specs.Replaced.{Replaces};
ghost use Rattle.cmd_soak.specs.Rounds.{members, soaked};
ghost use Rattle.store_audit.specs.Audits.{Audits};
ghost use Rattle.bus_spec.specs.Cluster.{cluster};
ghost use Rattle.bus_spec.specs.Lawful.{AreLawful};
ghost use Rattle.allocator_app.specs.Faults.{NamesFault};
ghost use Rattle.allocator_app.specs.Followed.{IsFollowed};
ghost use Rattle.allocator_app.specs.Nodes.{RunsInTraces};
ghost use Rattle.allocator_app.specs.Promise.{KeepsPromise};
ghost use Rattle.allocator_app.specs.Report.{IsBegun, IsReport, IsToTheEnd};
ghost use Rattle.allocator_app.specs.Rows.{IsTold, Replays};
ghost use Rattle.allocator_app.specs.Soaking.{Soaks};
ghost use Rattle.allocator_app.specs.Words.{AreAbsent, AreGiven, AreNone, ArePresent, AreStored, Asks, HasObjects, Reads, UsesDisks, UsesLinks};
ghost use Rattle.allocator_app.specs.Told.{told_rules};
ghost use Rattle.allocator_app.specs.Words.{IsAsked, IsAudit, IsConvert, IsDecode, IsNew, IsNode, IsReplace, IsReplay, IsSoak, IsSound, IsWatch};
ghost use Rattle.allocator_app.specs.declared.told.Told.{Told};

use crate::plans::Plan;
use crate::replay::replay;
use crate::words::plan;
use bus_agreement::allocatees::the_allocatees;
use bus_agreement::headline::{lawful_rows_do_no_harm, rows_are_safe, the_headline};
use bus_physics::laws::runs_stand_on_a_bus;
use cmd_decode::decode;
use cmd_io::Status;
use cmd_logs::{convert, watch};
use cmd_new::make_stores;
use cmd_node::node;
use cmd_node_laws::laws::{runs_of_node_are_rows, traces_do_no_harm};
use cmd_replace::replace;
use cmd_soak::laws::rows_are_lawful;
use cmd_soak::soak;
use disk_model::Disk;
use outside::{Clock, Link, Sink, Source};
use replay_text::laws::a_line_has_one_row;
use std::alloc::Global;
use store_audit::audit_stores;

/// Does what the words ask for.
///
/// `replay <rows> <id>..` reads a schedule from the source and writes its report to the sink. A schedule
/// has one report, and one status that it comes with (`specs/Report.antt`): `Done`, or `BadRow`,
/// `Unlawful` or `Limit` with the number of the first row that is not taken. The run comes to them unless
/// something fails, or there is not enough memory to begin with. Of the bytes behind the rows that were
/// taken at most 4,096 are read (`NoFurther` of `cmd_io`). `ReadFault` comes exactly where the source
/// counted a fault, `WriteFault` exactly where the sink did. Where the source failed, the lines of exactly
/// the rows whose line feeds were read are written; where the sink failed, it has a front of the report
/// (`specs/InPart.antt`).
///
/// `soak <seed> <rounds> <size>` makes its rows from the seed, and writes what they came to in six lines
/// (`Rounds` and `Counts` of `cmd_soak`). With `configured` before the size its members are told who they are.
///
/// `node <members> <base> <turns> <id>..` runs these members of a cluster, which are told its size or a list
/// of its members, over the links and the disks that are handed in, one of each for a member, in their order,
/// and writes what the last 256 steps told. Each disk is there again at the end (`RunsNodes` of `cmd_node`).
/// `LinkFault` and `DiskFault` come only where the link or the disk of that node failed, and `Damaged` only
/// where the store of that node is damaged, first at that key, and those before it are not, if these disks
/// tell what they hold. Then one line is written, and with `Damaged` no frame came or went. But for
/// `WriteFault` no link and no disk counted a fault that the status does not name. Where nothing fails it
/// comes to `Done`, `Damaged` or `AnotherLog`, unless there is not enough memory to begin with.
///
/// Where links, disks and the clock tell what they have: with `Done` what was sent, written and stored is
/// exactly what the members do over what came on the links and what the clock read (`WholeRun` of
/// `cmd_node`). With `LinkFault`, `DiskFault`, `Damaged` and `AnotherLog` what was sent is a beginning of what a run
/// to its end sends, and each store that was opened holds what it then held (`CutRun` of `cmd_node`). With
/// `AnotherLog` a call came that contradicts what that node has committed (`IsCalledIn`); with `Done` none came. And in
/// every trace of a cluster of processes in which the run stands, what it sent and stored is what the world
/// of the trace's rows says (`Traces` and `Stands` of `cmd_node_laws`).
///
/// `new <id>..` makes a new store of each of the disks that are handed in, one for each of these members: an
/// image with its version alone, synced (`MakesStores` of `cmd_new`). With `above <term>` before the members each image
/// also has this term, and a vote for its own member.
///
/// `replace <lost> <id>..` makes the store of the lost one of these members from the leader's, where the stores of the
/// others allow it, a disk for each; only that of the lost one is written (`Replaces` of `cmd_replace`). Else it is
/// `NoLeader`, or `Uncommitted` with the leader.
///
/// `audit <id>..` compares the stores of these members, a disk for each, and changes none of them: the lines of
/// what they agree on, or `Differ` with the line that names two that differ (`Audits` of `store_audit`).
///
/// `watch <format> <lines> <id>..` lists the transfers of a log that comes from the source (`Watches` of
/// `cmd_logs`), and `convert <format> <format> <lines>` writes the log in the other form or the same
/// (`Converts`). `decode <name> <part> <hex>` writes the numbers of a payload under the part of a type that the
/// text of the source describes (`Decodes` of `cmd_decode`); it is `NoPart` where the text has no such part, and
/// `NoValue` where the payload has no reading. `new`, `replace`, `audit`, `watch`, `convert` and `decode` take no memory,
/// and come to the end that their input has unless something fails.
///
/// Links are handed in for `node` alone, and disks for `node`, `new`, `replace` and `audit`; with other words or objects
/// the status is `Usage`. With `Usage` and `Memory` nothing is touched.
///
/// The promise (`KeepsPromise`) holds along the rows of a report that no fault ended, of a soak and of such a
/// trace. After each row what each allocator has committed is a prefix of one list, which only grows and never
/// gives one node ID to two unique IDs, nor two to one; every Allocation with a node ID that waits for the bus, or
/// was on it, is a pair of the list by then; and the log of every later leader whose term is at least a member's
/// stored one begins with what that member has committed. What a device has that takes a node ID by the standard's
/// rule is a pair of that list, so two with different unique IDs never have one node ID, and one unique ID never has
/// two. Along the rows of a report each allocator by itself keeps its word, too (`KeepsItsWord` of `bus_spec`):
/// its whole log gives nothing twice, and whatever pair it offers is one of its own committed log.
///
/// `Memory` is free: no clause ties it to a cause. It can come from the start of a run of `replay`, `soak` or `node`
/// alone. `LinkFault`, `DiskFault`, `Damaged` and `AnotherLog` do not come of `replay` or `soak`.
///
/// When a schedule comes to `Done`, `BadRow`, `Unlawful` or `Limit` is said by `Says` (in words: docs/FORMATS.md, "Exit
/// codes"), and that its bytes are exactly the report by `IsReport`. With `ReadFault` the read was needed: the next
/// line was not read whole (`IsReadInPart`). With `WriteFault` the source was read at most 4,096 bytes past the rows
/// whose lines are all written (`IsWrittenInPart`).
///
/// The other modes do what their calls say: `soak` of `cmd_soak`, `make_stores` of `cmd_new`, `node` of `cmd_node`,
/// `replace` of `cmd_replace`, `audit_stores` of `store_audit`, `watch` and `convert` of `cmd_logs`, and `decode` of `cmd_decode`. What a run of
/// `node` is in each trace of processes in which it stands (`RunsInTraces`: `done`, `cut`, `output_failed`), is in
/// words in docs/PROOFS.md, "Processes".
pub fn run<S: Source, K: Sink, L: Link, D: Disk, C: Clock>(
    alloc: Global,
    words: &[String],
    source: &mut S,
    sink: &mut K,
    links: &mut [L],
    disks: &mut [Option<D>],
    clock: &mut C,
) -> Status
    ensures usage { (result ≡ Status.Usage) ↔
        (IsAsked (map string_bytes words.now) links.old disks.old → ⊥) }
    ensures asked { (result ≡ Status.Usage) ⊎
        IsAsked (map string_bytes words.now) links.old disks.old }
    ensures untouched { (result ≡ Status.Usage) ⊎ (result ≡ Status.Memory) →
        (source.new ≡ source.old) × (sink.new ≡ sink.old) × (links.new ≡ links.old) ×
        (disks.new ≡ disks.old) × (clock.new ≡ clock.old) }
    ensures objects { AreNone links.old disks.old → (links.new ≡ links.old) ×
        (disks.new ≡ disks.old) × (clock.new ≡ clock.old) }
    // Links and clock are those of nodes; the source is that of schedules, logs and texts.
    ensures idle { (Asks UsesLinks (map string_bytes words.now) → ⊥) →
        (links.new ≡ links.old) × (clock.new ≡ clock.old) }
    ensures unread { (Asks Reads (map string_bytes words.now) → ⊥) → source.new ≡ source.old }
    ensures source_kept { NamesFault (result ≡ Status.ReadFault)
        (S.faults source.old) (S.faults source.new) }
    ensures sink_kept { NamesFault (result ≡ Status.WriteFault)
        (K.faults sink.old) (K.faults sink.new) }
    // A schedule: what is written and read, by the status.
    ensures schedule { (limit : ℕ) (nodes : List ℕ) →
        IsReplay limit nodes (map string_bytes words.now) →
        (result ≡ Status.Usage) ⊎ Replays limit nodes (S.left source.old) (S.left source.new)
        (K.written sink.old) (K.written sink.new) result }
    // Along the rows of the report that is written the promise holds.
    ensures headline { (limit : ℕ) (nodes bytes : List ℕ) →
        IsReplay limit nodes (map string_bytes words.now) → S.left source.old ≡ Some bytes →
        IsToTheEnd result →
        (told : IsTold result limit (cluster nodes) bytes (S.left source.new)
        (K.written sink.old) (K.written sink.new)) × KeepsPromise nodes told.is.comes.rows }
    // A schedule has one report; unless something fails or memory is missing, the run comes to it.
    ensures complete { (limit : ℕ) (nodes bytes report : List ℕ) (status : Status) →
        IsReplay limit nodes (map string_bytes words.now) → AreNone links.old disks.old →
        S.left source.old ≡ Some bytes → IsReport limit (cluster nodes) bytes report status →
        (Rose (S.faults source.old) (S.faults source.new) → ⊥) →
        (Rose (K.faults sink.old) (K.faults sink.new) → ⊥) →
        (result ≡ status) ⊎ (result ≡ Status.Memory) }
    // So a schedule of lawful rows, as many as may come at most, is read to its end.
    ensures finishes { (limit : ℕ) (nodes bytes : List ℕ) (rows : List Row) →
        IsReplay limit nodes (map string_bytes words.now) → AreNone links.old disks.old →
        S.left source.old ≡ Some bytes → ReadsRows rows bytes [] → length rows ≤ limit →
        AreLawful (cluster nodes) rows →
        (Rose (S.faults source.old) (S.faults source.new) → ⊥) →
        (Rose (K.faults sink.old) (K.faults sink.new) → ⊥) →
        (result ≡ Status.Done) ⊎ (result ≡ Status.Memory) }
    // A soak: what is written; and along its rows the promise holds.
    ensures soak { (told : Bool) (seed rounds size : ℕ) →
        IsSoak told seed rounds size (map string_bytes words.now) →
        (result ≡ Status.Usage) ⊎ (Soaks told seed rounds size (K.faults sink.old) (K.faults sink.new)
        (K.written sink.old) (K.written sink.new) result ×
        KeepsPromise (members size) (soaked told seed rounds size).rows) }
    // Allocators over links and disks: what is left and written; and in every trace of processes in
    // which the run stands it is what the world of the trace says, along whose rows the promise holds. In
    // a trace that happens on a physical bus it stands without a premise on what is torn or stale.
    ensures nodes { (told : Told) (base turns : ℕ) (ids : List ℕ) →
        IsNode told base turns ids (map string_bytes words.now) →
        (result ≡ Status.Usage) ⊎ RunsInTraces L.coming L.sent L.faults D.Disk (told_rules told) turns ids
        links.old links.new disks.old disks.new (C.readings clock.old) (C.readings clock.new)
        (K.faults sink.old) (K.faults sink.new) (K.written sink.old) (K.written sink.new) result }
    // Stores that are made: what is written, and that each disk has the image of a new store then, all of it stable.
    ensures new { (term : ℕ) (ids : List ℕ) → IsNew term ids (map string_bytes words.now) →
        (result ≡ Status.Usage) ⊎ MakesStores D.Disk term ids disks.old disks.new
        (K.written sink.old) (K.written sink.new) result }
    // A store that is made from the leader's: what is written, or what stands in the way.
    ensures replace { (lost : ℕ) (ids : List ℕ) → IsReplace lost ids (map string_bytes words.now) →
        (result ≡ Status.Usage) ⊎ Replaces D.Disk ids lost disks.old disks.new
        (K.written sink.old) (K.written sink.new) result }
    // Stores that are compared: what is written, and that they stay as they are.
    ensures audit { (ids : List ℕ) → IsAudit ids (map string_bytes words.now) →
        (result ≡ Status.Usage) ⊎ Audits D.Disk ids disks.old disks.new
        (K.written sink.old) (K.written sink.new) result }
    // A log: what is listed of it, and what it is brought into.
    ensures watch { (form : Form) (lines : ℕ) (ids : List ℕ) →
        IsWatch form lines ids (map string_bytes words.now) →
        (result ≡ Status.Usage) ⊎ Watches form lines ids (S.left source.old) (S.left source.new)
        (S.faults source.old) (S.faults source.new) (K.faults sink.old) (K.faults sink.new)
        (K.written sink.old) (K.written sink.new) result }
    ensures convert { (from to : Form) (lines : ℕ) →
        IsConvert from to lines (map string_bytes words.now) →
        (result ≡ Status.Usage) ⊎ Converts from to lines
        (S.left source.old) (S.left source.new) (S.faults source.old) (S.faults source.new)
        (K.faults sink.old) (K.faults sink.new) (K.written sink.old) (K.written sink.new) result }
    // A text: what it makes of a payload.
    ensures decode { (name : List ℕ) (part : ℕ) (payload : List ℕ) →
        IsDecode name part payload (map string_bytes words.now) →
        (result ≡ Status.Usage) ⊎ Decodes name part payload (S.left source.old) (S.left source.new)
        (S.faults source.old) (S.faults source.new) (K.faults sink.old) (K.faults sink.new)
        (K.written sink.old) (K.written sink.new) result }
{
    // The laws behind the clauses `complete`, `headline`, `soak` and `nodes`.
    a_line_has_one_row();
    lawful_rows_do_no_harm();
    rows_are_lawful();
    runs_of_node_are_rows::<L, D>();
    runs_stand_on_a_bus();
    rows_are_safe();
    the_headline();
    the_allocatees();
    traces_do_no_harm();
    let Some(plan) = plan(words) else {
        return Status::Usage;
    };
    if !has_objects(&plan, links, disks) {
        return Status::Usage;
    }
    follow(alloc, plan, source, sink, links, disks, clock)
}

/// Whether the objects that a plan needs are handed in, and no others.
fn has_objects<L: Link, D: Disk>(plan: &Plan, links: &[L], disks: &[Option<D>]) -> bool
    ensures { IsTrue result ↔ HasObjects plan.now links.now disks.now }
{
    match plan {
        Plan::Node { ids, .. } => are_given(ids, links, disks),
        Plan::New { ids, .. } => are_stored(ids, links, disks),
        Plan::Replace { ids, .. } => are_stored(ids, links, disks),
        Plan::Audit { ids } => are_stored(ids, links, disks),
        Plan::Replay { .. }
        | Plan::Soak { .. }
        | Plan::Watch { .. }
        | Plan::Convert { .. }
        | Plan::Decode { .. } => are_none(links, disks),
    }
}

/// Whether neither a link nor a disk is handed in.
fn are_none<L: Link, D: Disk>(links: &[L], disks: &[Option<D>]) -> bool
    ensures { IsTrue result ↔ AreNone links.now disks.now }
{
    links.is_empty() && are_absent(disks)
}

fn are_absent<D: Disk>(disks: &[Option<D>]) -> bool
    ensures { IsTrue result ↔ AreAbsent disks.now }
{
    disks.iter().all(|disk| disk.is_none())
}

/// Whether a link and a disk is handed in for each of these nodes.
fn are_given<L: Link, D: Disk>(ids: &[u8], links: &[L], disks: &[Option<D>]) -> bool
    ensures { IsTrue result ↔ AreGiven ids.now links.now disks.now }
{
    links.len() == ids.len() && disks.len() == ids.len() && are_present(disks)
}

/// Whether no link is handed in, and a disk for each of these nodes.
fn are_stored<L: Link, D: Disk>(ids: &[u8], links: &[L], disks: &[Option<D>]) -> bool
    ensures { IsTrue result ↔ AreStored ids.now links.now disks.now }
{
    links.is_empty() && disks.len() == ids.len() && are_present(disks)
}

fn are_present<D: Disk>(disks: &[Option<D>]) -> bool
    ensures { IsTrue result ↔ ArePresent disks.now }
{
    disks.iter().all(|disk| disk.is_some())
}

fn follow<S: Source, K: Sink, L: Link, D: Disk, C: Clock>(
    alloc: Global,
    plan: Plan,
    source: &mut S,
    sink: &mut K,
    links: &mut [L],
    disks: &mut [Option<D>],
    clock: &mut C,
) -> Status
    requires sound { IsSound plan }
    requires objects { HasObjects plan links.old disks.old }
    ensures followed { IsFollowed L.coming L.sent L.faults D.Disk links.old links.new
        disks.old disks.new (C.readings clock.old) (C.readings clock.new)
        (S.left source.old) (S.left source.new) (S.faults source.old) (S.faults source.new)
        (K.faults sink.old) (K.faults sink.new) (K.written sink.old) (K.written sink.new) result plan }
    ensures unread { Reads plan ⊎ (source.new ≡ source.old) }
    ensures idle { UsesLinks plan ⊎ ((links.new ≡ links.old) × (clock.new ≡ clock.old)) }
    ensures disks { UsesDisks plan ⊎ (disks.new ≡ disks.old) }
    ensures untouched { result ≡ Status.Memory →
        (source.new ≡ source.old) × (sink.new ≡ sink.old) × (links.new ≡ links.old) ×
        (disks.new ≡ disks.old) × (clock.new ≡ clock.old) }
    ensures begun { IsBegun result }
    ensures source_kept { NamesFault (result ≡ Status.ReadFault)
        (S.faults source.old) (S.faults source.new) }
    ensures sink_kept { NamesFault (result ≡ Status.WriteFault)
        (K.faults sink.old) (K.faults sink.new) }
{
    match plan {
        Plan::Replay { rows, ids } => replay(alloc, rows, &ids, source, sink),
        Plan::Node {
            told,
            turns,
            ids,
            ..
        } => node(
            alloc,
            told.size(),
            told.list(),
            turns,
            &ids,
            sink,
            links,
            disks,
            clock,
        ),
        Plan::Soak {
            told,
            seed,
            rounds,
            size,
        } => soak(alloc, told, seed, rounds, size, sink),
        Plan::New { term, ids } => make_stores(term, &ids, disks, sink),
        Plan::Replace { lost, ids } => replace(&ids, lost, disks, sink),
        Plan::Audit { ids } => audit_stores(&ids, disks, sink),
        Plan::Watch { form, lines, ids } => watch(form, lines, &ids, source, sink),
        Plan::Convert { from, to, lines } => convert(from, to, lines, source, sink),
        Plan::Decode {
            name,
            part,
            payload,
        } => decode(&name, part, &payload, source, sink),
    }
}
