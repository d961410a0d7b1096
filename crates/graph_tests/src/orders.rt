//! The ledger over both graphs: worked examples with every position, refusal, step and status, and calls that are drawn.

ghost use Rattle.std.specs.Prelude.{◌<◌};

use crate::drive::{Answer, Order, answer_to, id};
use delf_model::{
    Cause, EdgeNo, GraphStore, Job, JobLine, JobName, Moment, ObjectId, ObjectRule, Refusal, Rules,
    Status, TypeNo, What,
};
use ledger::Ledger;
use live_graph::{ListGraph, ShardGraph};
use schema_lang::parse_schema;
use std::alloc::Global;
use std::process::Abort;
use std::test::Fail;

const USER: u8 = 0;

const PHOTO: u8 = 1;

const ALBUM: u8 = 2;

const SESSION: u8 = 3;

const OWNS: u8 = 0;

const LIKES: u8 = 1;

const HOLDS: u8 = 2;

const PAGE: u8 = 0;

const REFS: u8 = 0;

const POST: u8 = 1;

const COMMENT: u8 = 2;

const MEDIA: u8 = 3;

const TOKEN: u8 = 4;

const AUDIT: u8 = 5;

// Users own photos and sessions, and like photos; albums hold photos.
const PHOTOS: &[u8] =
    b"schema 1\nwindow 100\nobject user directly\nobject photo by_any\nobject album directly\nobject session short_ttl 60\nedge owns user photo deep\nedge likes user photo shallow\nedge holds album photo refcount\nedge uses user session deep\n";

// Pages refer to pages.
const PAGES: &[u8] = b"schema 1\nwindow 0\nobject page directly\nedge refs page page refcount\n";

// Users write posts and comments on them; posts show media, and users log in and are seen.
const ACCOUNTS: &[u8] =
    b"schema 1\nwindow 2592000\nobject user directly\nobject post directly\nobject comment directly\nobject media by_any\nobject token short_ttl 3600\nobject audit not_deleted\nedge wrote user post deep\nedge made user comment deep\nedge on post comment deep\nedge shows post media refcount\nedge likes user post shallow\nedge login user token deep\nedge seen user audit shallow\n";

// The rules of a schema.
fn rules_of(alloc: Global, schema: &[u8]) -> Result<Rules, Fail> {
    let schema = parse_schema(alloc, schema)?;
    Ok(Rules::of(alloc, &schema)?)
}

// A blank ledger over the graph of the program.
fn opened(alloc: Global, schema: &[u8]) -> Result<Ledger<ShardGraph>, Fail> {
    let rules = rules_of(alloc, schema)?;
    let graph = ShardGraph::empty(alloc, &rules)?;
    Ok(Ledger::new(alloc, rules, graph))
}

// A blank ledger over the plain graph.
fn opened_plain(alloc: Global, schema: &[u8]) -> Result<Ledger<ListGraph>, Fail> {
    let rules = rules_of(alloc, schema)?;
    let graph = ListGraph::empty(alloc, &rules)?;
    Ok(Ledger::new(alloc, rules, graph))
}

// That the order is answered so.
fn answers<G: GraphStore>(
    rt: &impl Abort,
    alloc: Global,
    ledger: &mut Ledger<G>,
    clock: &mut Moment,
    order: Order,
    wanted: Answer,
) -> Result<(), Fail> {
    let answer = answer_to(alloc, ledger, clock, order)?;
    assert_eq!(rt; answer, wanted, "at {order:?}");
    Ok(())
}

// That a ledger answers each order so, from this moment on.
fn plays_over<G: GraphStore>(
    rt: &impl Abort,
    alloc: Global,
    ledger: &mut Ledger<G>,
    mut clock: Moment,
    rows: &[(Order, Answer)],
) -> Result<(), Fail> {
    for (order, wanted) in rows {
        answers(rt, alloc, ledger, &mut clock, *order, *wanted)?;
    }
    Ok(())
}

// The same of a blank ledger over the graph of the program.
fn plays_over_shards(
    rt: &impl Abort,
    alloc: Global,
    schema: &[u8],
    clock: Moment,
    rows: &[(Order, Answer)],
) -> Result<(), Fail> {
    let mut ledger = opened(alloc, schema)?;
    plays_over(rt, alloc, &mut ledger, clock, rows)
}

// The same of a blank ledger over the plain graph.
fn plays_over_lists(
    rt: &impl Abort,
    alloc: Global,
    schema: &[u8],
    clock: Moment,
    rows: &[(Order, Answer)],
) -> Result<(), Fail> {
    let mut ledger = opened_plain(alloc, schema)?;
    plays_over(rt, alloc, &mut ledger, clock, rows)
}

// That a ledger which is blank at this moment answers each order so, over either graph.
fn plays(
    rt: &impl Abort,
    alloc: Global,
    schema: &[u8],
    clock: Moment,
    rows: &[(Order, Answer)],
) -> Result<(), Fail> {
    plays_over_shards(rt, alloc, schema, clock, rows)?;
    plays_over_lists(rt, alloc, schema, clock, rows)
}

fn line(job: u32, name: JobName, root: ObjectId, erased: u32, cut: u32, status: Status) -> Answer {
    Answer::Line(JobLine {
        job: Job(job),
        name,
        root,
        erased,
        cut,
        status,
    })
}

fn cut(job: u32, edge: u8, from: ObjectId, to: ObjectId) -> Answer {
    Answer::Entry(What::Cut {
        job: Job(job),
        edge: EdgeNo(edge),
        from,
        to,
    })
}

fn erase(job: u32, id: ObjectId) -> Answer {
    Answer::Entry(What::Erase { job: Job(job), id })
}

fn put(job: u32, item: u32) -> Answer {
    Answer::Entry(What::Put {
        job: Job(job),
        item,
    })
}

#[test]
fn a_deletion_takes_what_was_owned_and_is_put_back(rt: HostRuntime) -> Result<(), Fail> {
    let (one, two) = (id(1)?, id(2)?);
    plays(
        &rt,
        rt.alloc(),
        PHOTOS,
        0,
        &[
            (Order::Create(USER, 1, 1), Answer::At(0)),
            (Order::Create(PHOTO, 2, 1), Answer::At(1)),
            (Order::Link(OWNS, 1, 2), Answer::At(2)),
            (Order::Delete(1, 40), Answer::At(3)),
            (Order::Work(10), Answer::Idle(3)),
            (Order::Graph, Answer::Graph(0, 0)),
            (Order::Entry(4), cut(3, OWNS, one, two)),
            (Order::Entry(5), erase(3, one)),
            (Order::Entry(6), erase(3, two)),
            (Order::Entry(7), Answer::Nothing),
            (Order::Restore(40), Answer::At(7)),
            (Order::Work(10), Answer::Idle(3)),
            (Order::Graph, Answer::Graph(2, 1)),
            (Order::Object(1), Answer::Free(USER, 0, 1)),
            (Order::Object(2), Answer::Free(PHOTO, 1, 1)),
            (Order::Edge(OWNS, 1, 2), Answer::Linked(2)),
        ],
    )
}

#[test]
fn what_was_made_since_is_kept(rt: HostRuntime) -> Result<(), Fail> {
    let (one, two) = (id(1)?, id(2)?);
    plays(
        &rt,
        rt.alloc(),
        PHOTOS,
        0,
        &[
            (Order::Create(USER, 1, 1), Answer::At(0)),
            (Order::Create(PHOTO, 2, 1), Answer::At(1)),
            (Order::Link(OWNS, 1, 2), Answer::At(2)),
            (Order::Delete(1, 40), Answer::At(3)),
            (Order::Work(10), Answer::Idle(3)),
            (Order::Create(PHOTO, 2, 1), Answer::At(7)),
            (Order::Restore(40), Answer::At(8)),
            (Order::Work(10), Answer::Idle(3)),
            (
                Order::Line(0),
                line(
                    3,
                    JobName::Named(40),
                    one,
                    2,
                    1,
                    Status::Restored { put: 1, listed: 2 },
                ),
            ),
            (
                Order::Listed(3, 0),
                Answer::Listed(2, Cause::Taken { birth: 7 }),
            ),
            (
                Order::Listed(3, 1),
                Answer::Listed(0, Cause::EndMissing { id: two }),
            ),
            (Order::Listed(3, 2), Answer::Nothing),
            (Order::Graph, Answer::Graph(2, 0)),
            (Order::Object(1), Answer::Free(USER, 0, 1)),
            (Order::Object(2), Answer::Free(PHOTO, 7, 1)),
        ],
    )
}

#[test]
fn a_photo_goes_with_its_last_album(rt: HostRuntime) -> Result<(), Fail> {
    plays(
        &rt,
        rt.alloc(),
        PHOTOS,
        0,
        &[
            (Order::Create(ALBUM, 5, 0), Answer::At(0)),
            (Order::Create(ALBUM, 6, 0), Answer::At(1)),
            (Order::Create(PHOTO, 3, 1), Answer::At(2)),
            (Order::Link(HOLDS, 5, 3), Answer::At(3)),
            (Order::Link(HOLDS, 6, 3), Answer::At(4)),
            (Order::Delete(5, 40), Answer::At(5)),
            (Order::Work(10), Answer::Idle(2)),
            (Order::Object(3), Answer::Free(PHOTO, 2, 1)),
            (Order::Unlink(HOLDS, 6, 3, 41), Answer::At(8)),
            (Order::Object(3), Answer::Owned(Job(8))),
            (Order::Work(10), Answer::Idle(1)),
            (Order::Graph, Answer::Graph(1, 0)),
            (Order::Object(6), Answer::Free(ALBUM, 1, 0)),
        ],
    )
}

#[test]
fn an_owner_takes_what_an_album_holds(rt: HostRuntime) -> Result<(), Fail> {
    let one = id(1)?;
    plays(
        &rt,
        rt.alloc(),
        PHOTOS,
        0,
        &[
            (Order::Create(USER, 1, 0), Answer::At(0)),
            (Order::Create(ALBUM, 5, 0), Answer::At(1)),
            (Order::Create(PHOTO, 3, 0), Answer::At(2)),
            (Order::Link(HOLDS, 5, 3), Answer::At(3)),
            (Order::Link(OWNS, 1, 3), Answer::At(4)),
            (Order::Delete(1, 40), Answer::At(5)),
            (Order::Work(10), Answer::Idle(4)),
            (
                Order::Line(0),
                line(
                    5,
                    JobName::Named(40),
                    one,
                    2,
                    2,
                    Status::Done {
                        erased: 2,
                        cut: 2,
                        last: 0,
                    },
                ),
            ),
            (Order::Graph, Answer::Graph(1, 0)),
            (Order::Object(5), Answer::Free(ALBUM, 1, 0)),
        ],
    )
}

#[test]
fn two_jobs_meet(rt: HostRuntime) -> Result<(), Fail> {
    let (one, two, nine) = (id(1)?, id(2)?, id(9)?);
    plays(
        &rt,
        rt.alloc(),
        PHOTOS,
        0,
        &[
            (Order::Create(USER, 1, 0), Answer::At(0)),
            (Order::Create(USER, 9, 0), Answer::At(1)),
            (Order::Create(PHOTO, 2, 0), Answer::At(2)),
            (Order::Link(OWNS, 1, 2), Answer::At(3)),
            (Order::Link(OWNS, 9, 2), Answer::At(4)),
            (Order::Delete(1, 40), Answer::At(5)),
            (Order::Delete(9, 41), Answer::At(6)),
            (Order::Work(4), Answer::Worked(4)),
            (Order::Entry(7), cut(5, OWNS, one, two)),
            (Order::Entry(8), erase(5, one)),
            (Order::Entry(9), cut(5, OWNS, nine, two)),
            (Order::Entry(10), erase(5, two)),
            (
                Order::Line(0),
                line(
                    5,
                    JobName::Named(40),
                    one,
                    2,
                    2,
                    Status::Done {
                        erased: 2,
                        cut: 2,
                        last: 0,
                    },
                ),
            ),
            (
                Order::Line(1),
                line(
                    6,
                    JobName::Named(41),
                    nine,
                    0,
                    0,
                    Status::Pending { owned: 1 },
                ),
            ),
            (Order::Line(2), Answer::Nothing),
            (Order::Restore(40), Answer::At(11)),
            (Order::Work(10), Answer::Idle(5)),
            (Order::Entry(12), put(5, 3)),
            (Order::Entry(13), put(5, 2)),
            (Order::Entry(14), put(5, 1)),
            (Order::Entry(15), put(5, 0)),
            (Order::Entry(16), erase(6, nine)),
            (
                Order::Status(40),
                Answer::Status(Status::Restored { put: 3, listed: 1 }),
            ),
            (
                Order::Listed(5, 0),
                Answer::Listed(
                    2,
                    Cause::EndCondemned {
                        id: nine,
                        job: Job(6),
                    },
                ),
            ),
            (Order::Listed(5, 1), Answer::Nothing),
            (
                Order::Line(1),
                line(
                    6,
                    JobName::Named(41),
                    nine,
                    1,
                    0,
                    Status::Done {
                        erased: 1,
                        cut: 0,
                        last: 0,
                    },
                ),
            ),
        ],
    )
}

#[test]
fn refusals_come_in_their_order(rt: HostRuntime) -> Result<(), Fail> {
    let (one, two, eight) = (id(1)?, id(2)?, id(8)?);
    let condemned = Refusal::Condemned {
        id: one,
        job: Job(3),
    };
    plays(
        &rt,
        rt.alloc(),
        PHOTOS,
        0,
        &[
            (Order::Create(USER, 1, 1), Answer::At(0)),
            (Order::Create(PHOTO, 2, 1), Answer::At(1)),
            (Order::Link(OWNS, 1, 2), Answer::At(2)),
            (
                Order::Delete(2, 40),
                Answer::Refused(
                    3,
                    Refusal::NotDirect {
                        rule: ObjectRule::ByAny,
                    },
                ),
            ),
            (
                Order::Link(OWNS, 2, 1),
                Answer::Refused(
                    3,
                    Refusal::WrongEnd {
                        id: two,
                        kind: TypeNo(PHOTO),
                    },
                ),
            ),
            (
                Order::Link(OWNS, 1, 2),
                Answer::Refused(3, Refusal::EdgeTaken { birth: 2 }),
            ),
            (
                Order::Unlink(LIKES, 1, 2, 9),
                Answer::Refused(3, Refusal::NoEdge),
            ),
            (
                Order::Update(8, 1),
                Answer::Refused(3, Refusal::Absent { id: eight }),
            ),
            (Order::Delete(1, 40), Answer::At(3)),
            (Order::Update(1, 1), Answer::Refused(4, condemned)),
            (Order::Delete(1, 41), Answer::Refused(4, condemned)),
            (Order::Unlink(OWNS, 1, 2, 42), Answer::Refused(4, condemned)),
            (
                Order::Create(USER, 1, 0),
                Answer::Refused(4, Refusal::NameTaken { id: one, birth: 0 }),
            ),
            (Order::Create(USER, 7, 0), Answer::At(4)),
            (
                Order::Delete(7, 40),
                Answer::Refused(5, Refusal::JobTaken { name: 40 }),
            ),
        ],
    )
}

#[test]
fn a_window_ends(rt: HostRuntime) -> Result<(), Fail> {
    plays(
        &rt,
        rt.alloc(),
        PHOTOS,
        0,
        &[
            (Order::Create(USER, 1, 1), Answer::At(0)),
            (Order::Create(PHOTO, 2, 1), Answer::At(1)),
            (Order::Link(OWNS, 1, 2), Answer::At(2)),
            (Order::Delete(1, 40), Answer::At(3)),
            (Order::Work(10), Answer::Idle(3)),
            (Order::Tick(100), Answer::Ticked),
            (Order::Work(10), Answer::Idle(0)),
            (Order::Restore(40), Answer::At(7)),
        ],
    )?;
    plays(
        &rt,
        rt.alloc(),
        PHOTOS,
        0,
        &[
            (Order::Create(USER, 1, 1), Answer::At(0)),
            (Order::Create(PHOTO, 2, 1), Answer::At(1)),
            (Order::Link(OWNS, 1, 2), Answer::At(2)),
            (Order::Delete(1, 40), Answer::At(3)),
            (Order::Work(10), Answer::Idle(3)),
            (Order::Tick(101), Answer::Ticked),
            (
                Order::Restore(40),
                Answer::Refused(7, Refusal::WindowOver { last: 100 }),
            ),
            (Order::Work(10), Answer::Idle(1)),
            (Order::Entry(7), Answer::Entry(What::Purge { job: Job(3) })),
            (
                Order::Restore(40),
                Answer::Refused(8, Refusal::WindowOver { last: 100 }),
            ),
            (Order::Status(40), Answer::Status(Status::Purged)),
        ],
    )
}

#[test]
fn a_restore_waits_and_is_made_once(rt: HostRuntime) -> Result<(), Fail> {
    plays(
        &rt,
        rt.alloc(),
        PHOTOS,
        0,
        &[
            (Order::Create(USER, 1, 1), Answer::At(0)),
            (Order::Create(PHOTO, 2, 1), Answer::At(1)),
            (Order::Link(OWNS, 1, 2), Answer::At(2)),
            (Order::Delete(1, 40), Answer::At(3)),
            (
                Order::Restore(40),
                Answer::Refused(4, Refusal::Pending { owned: 1 }),
            ),
            (Order::Work(1), Answer::Worked(1)),
            (
                Order::Restore(40),
                Answer::Refused(5, Refusal::Pending { owned: 2 }),
            ),
            (Order::Work(10), Answer::Idle(2)),
            (Order::Restore(40), Answer::At(7)),
            (
                Order::Restore(40),
                Answer::Refused(8, Refusal::RestoredBefore { position: 7 }),
            ),
            (Order::Restore(77), Answer::Refused(8, Refusal::NoJob)),
            (Order::Work(2), Answer::Worked(2)),
            (Order::Link(OWNS, 1, 2), Answer::At(10)),
            (Order::Work(10), Answer::Idle(1)),
            (
                Order::Status(40),
                Answer::Status(Status::Restored { put: 2, listed: 1 }),
            ),
            (
                Order::Listed(3, 0),
                Answer::Listed(0, Cause::KeyTaken { birth: 10 }),
            ),
            (Order::Listed(3, 1), Answer::Nothing),
        ],
    )
}

#[test]
fn a_session_expires(rt: HostRuntime) -> Result<(), Fail> {
    let seven = id(7)?;
    let restored = Status::Restored { put: 1, listed: 0 };
    let first = line(1, JobName::Expiry(seven), seven, 1, 0, restored);
    let done = Status::Done {
        erased: 1,
        cut: 0,
        last: 65,
    };
    let second = line(5, JobName::Expiry(seven), seven, 1, 0, done);
    plays(
        &rt,
        rt.alloc(),
        PHOTOS,
        5,
        &[
            (Order::Create(SESSION, 7, 1), Answer::At(0)),
            (Order::Tick(59), Answer::Ticked),
            (Order::Work(10), Answer::Idle(0)),
            (Order::Tick(1), Answer::Ticked),
            (Order::Work(10), Answer::Idle(2)),
            (Order::RestoreExpiry(7), Answer::At(3)),
            (Order::Work(10), Answer::Idle(3)),
            (Order::Line(0), first),
            (Order::Line(1), second),
            (Order::Line(2), Answer::Nothing),
        ],
    )
}

#[test]
fn a_page_that_refers_to_itself_is_held_by_that(rt: HostRuntime) -> Result<(), Fail> {
    plays(
        &rt,
        rt.alloc(),
        PAGES,
        0,
        &[
            (Order::Create(PAGE, 1, 0), Answer::At(0)),
            (Order::Link(REFS, 1, 1), Answer::At(1)),
            (Order::Create(PAGE, 2, 0), Answer::At(2)),
            (Order::Link(REFS, 2, 1), Answer::At(3)),
            (Order::Unlink(REFS, 2, 1, 9), Answer::At(4)),
            (Order::Status(9), Answer::Status(Status::NoJob)),
            (Order::Unlink(REFS, 1, 1, 9), Answer::At(5)),
            (Order::Object(1), Answer::Owned(Job(5))),
            (Order::Work(10), Answer::Idle(1)),
            (Order::Graph, Answer::Graph(1, 0)),
            (Order::Object(2), Answer::Free(PAGE, 2, 0)),
        ],
    )
}

#[test]
fn an_account_goes_but_for_what_others_keep(rt: HostRuntime) -> Result<(), Fail> {
    let one = id(1)?;
    let (wrote, made, on, shows, likes, login, seen) = (0, 1, 2, 3, 4, 5, 6);
    plays(
        &rt,
        rt.alloc(),
        ACCOUNTS,
        1000,
        &[
            (Order::Create(USER, 1, 3), Answer::At(0)),
            (Order::Create(USER, 2, 3), Answer::At(1)),
            (Order::Create(POST, 10, 2), Answer::At(2)),
            (Order::Create(COMMENT, 11, 2), Answer::At(3)),
            (Order::Create(MEDIA, 20, 3), Answer::At(4)),
            (Order::Create(TOKEN, 30, 1), Answer::At(5)),
            (Order::Create(AUDIT, 40, 3), Answer::At(6)),
            (Order::Link(wrote, 1, 10), Answer::At(7)),
            (Order::Link(made, 2, 11), Answer::At(8)),
            (Order::Link(on, 10, 11), Answer::At(9)),
            (Order::Link(shows, 10, 20), Answer::At(10)),
            (Order::Link(likes, 2, 10), Answer::At(11)),
            (Order::Link(login, 1, 30), Answer::At(12)),
            (Order::Link(seen, 1, 40), Answer::At(13)),
            (Order::Delete(1, 7), Answer::At(14)),
            (Order::Work(100), Answer::Idle(12)),
            (
                Order::Line(0),
                line(
                    14,
                    JobName::Named(7),
                    one,
                    5,
                    7,
                    Status::Done {
                        erased: 5,
                        cut: 7,
                        last: 1000,
                    },
                ),
            ),
            (Order::Graph, Answer::Graph(2, 0)),
            (Order::Object(2), Answer::Free(USER, 1, 3)),
            (Order::Object(40), Answer::Free(AUDIT, 6, 3)),
            (Order::Restore(7), Answer::At(27)),
            (Order::Work(100), Answer::Idle(12)),
            (Order::Graph, Answer::Graph(7, 7)),
            (
                Order::Status(7),
                Answer::Status(Status::Restored { put: 12, listed: 0 }),
            ),
        ],
    )
}

const WAVES: u32 = 100;

// A hundred users are created, deleted and erased, where so many waves were before.
fn wave(
    rt: &impl Abort,
    alloc: Global,
    ledger: &mut Ledger<ShardGraph>,
    clock: &mut Moment,
    before: u32,
) -> Result<(), Fail>
    requires { before < WAVES }
{
    for i in 0..100 {
        let order = Order::Create(USER, (100 * before + i + 1) as u64, 0);
        answers(
            rt,
            alloc,
            ledger,
            clock,
            order,
            Answer::At(300 * before + i),
        )?;
    }
    for i in 0..100 {
        let order = Order::Delete((100 * before + i + 1) as u64, 100 * before + i);
        answers(
            rt,
            alloc,
            ledger,
            clock,
            order,
            Answer::At(300 * before + 100 + i),
        )?;
    }
    answers(
        rt,
        alloc,
        ledger,
        clock,
        Order::Work(1_000),
        Answer::Idle(100),
    )
}

// What many users leave: each job is purged once the window is over.
const PURGED: [(Order, Answer); 6] = [
    (Order::Tick(100), Answer::Ticked),
    (Order::Work(1_000_000), Answer::Idle(0)),
    (Order::Tick(1), Answer::Ticked),
    (Order::Work(1_000_000), Answer::Idle(100 * WAVES)),
    (
        Order::Status(100 * WAVES - 1),
        Answer::Status(Status::Purged),
    ),
    (Order::Entry(400 * WAVES), Answer::Nothing),
];

// That many users come and go over a blank ledger.
fn come_and_go(
    rt: &impl Abort,
    alloc: Global,
    ledger: &mut Ledger<ShardGraph>,
) -> Result<(), Fail> {
    let mut clock = 0;
    for before in 0..WAVES {
        wave(rt, alloc, ledger, &mut clock, before)?;
    }
    plays_over(rt, alloc, ledger, clock, &PURGED)
}

#[test]
fn many_users_come_and_go(rt: HostRuntime) -> Result<(), Fail> {
    let mut ledger = opened(rt.alloc(), PHOTOS)?;
    come_and_go(&rt, rt.alloc(), &mut ledger)?;
    assert!(rt; ledger.len() == 400 * WAVES);
    Ok(())
}

// The next of a row of drawn numbers.
fn draw(seed: u64) -> u64 {
    seed.wrapping_mul(6_364_136_223_846_793_005)
        .wrapping_add(1_442_695_040_888_963_407)
}

// An order about a few objects, drawn by this number.
fn drawn(seed: u64) -> Order {
    let a = 1 + (seed >> 20) % 12;
    let b = 1 + (seed >> 30) % 12;
    let name = ((seed >> 40) % 40) as u32;
    match (seed >> 50) % 16 {
        0 => Order::Create(USER, a, 0),
        1 => Order::Create(PHOTO, a, 1),
        2 => Order::Create(ALBUM, a, 2),
        3 => Order::Create(SESSION, a, 0),
        4 => Order::Link(OWNS, a, b),
        5 => Order::Link(LIKES, a, b),
        6 => Order::Link(HOLDS, a, b),
        7 => Order::Link(3, a, b),
        8 => Order::Unlink(HOLDS, a, b, name),
        9 => Order::Delete(a, name),
        10 => Order::Restore(name),
        11 => Order::RestoreExpiry(a),
        12 => Order::Update(a, 3),
        13 => Order::Tick(7),
        _ => Order::Work(2),
    }
}

// That the order is answered alike by both ledgers, at one moment.
fn agree(
    rt: &impl Abort,
    alloc: Global,
    shards: &mut Ledger<ShardGraph>,
    plain: &mut Ledger<ListGraph>,
    clock: Moment,
    order: Order,
) -> Result<Moment, Fail> {
    let mut next = clock;
    let answer = answer_to(alloc, shards, &mut next, order)?;
    let mut also = clock;
    answers(rt, alloc, plain, &mut also, order, answer)?;
    Ok(next)
}

// That both ledgers have the same objects.
fn same_objects(
    rt: &impl Abort,
    alloc: Global,
    shards: &Ledger<ShardGraph>,
    plain: &Ledger<ListGraph>,
) -> Result<(), Fail> {
    let some = shards.graph().objects(alloc)?;
    let others = plain.graph().objects(alloc)?;
    assert!(rt; some == others);
    Ok(())
}

// That both ledgers have the same edges.
fn same_edges(
    rt: &impl Abort,
    alloc: Global,
    shards: &Ledger<ShardGraph>,
    plain: &Ledger<ListGraph>,
) -> Result<(), Fail> {
    let some = shards.graph().edges(alloc)?;
    let others = plain.graph().edges(alloc)?;
    assert!(rt; some == others);
    Ok(())
}

// That many orders that are drawn are answered alike.
fn play_drawn(
    rt: &impl Abort,
    alloc: Global,
    shards: &mut Ledger<ShardGraph>,
    plain: &mut Ledger<ListGraph>,
) -> Result<(), Fail> {
    let mut clock = 0;
    let mut seed = 12;
    for _ in 0..5_000 {
        seed = draw(seed);
        clock = agree(rt, alloc, shards, plain, clock, drawn(seed))?;
    }
    Ok(())
}

// That both ledgers have the same rows.
fn same_rows(
    rt: &impl Abort,
    alloc: Global,
    shards: &Ledger<ShardGraph>,
    plain: &Ledger<ListGraph>,
) -> Result<(), Fail> {
    assert!(rt; shards.len() > 100);
    same_objects(rt, alloc, shards, plain)?;
    same_edges(rt, alloc, shards, plain)
}

// That drawn orders are answered alike, and leave the same rows.
fn agree_on_drawn(
    rt: &impl Abort,
    alloc: Global,
    shards: &mut Ledger<ShardGraph>,
    plain: &mut Ledger<ListGraph>,
) -> Result<(), Fail> {
    play_drawn(rt, alloc, shards, plain)?;
    same_rows(rt, alloc, shards, plain)
}

// The same beside a blank ledger over the plain graph.
fn agree_over(rt: &impl Abort, alloc: Global, shards: &mut Ledger<ShardGraph>) -> Result<(), Fail> {
    let mut plain = opened_plain(alloc, PHOTOS)?;
    agree_on_drawn(rt, alloc, shards, &mut plain)
}

#[test]
fn both_graphs_agree_on_drawn_calls(rt: HostRuntime) -> Result<(), Fail> {
    let mut shards = opened(rt.alloc(), PHOTOS)?;
    agree_over(&rt, rt.alloc(), &mut shards)
}
