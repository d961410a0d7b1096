//! Lines, byte by byte.
use crate::{
    WorkEnd, edge_line, job_line, listed_line, load_line, object_line, par_line, refusal_line,
    report_json, restoring_line, route_line, unlinked_line, work_line,
};
use delf_model::{
    Bytes, Cause, EdgeKey, EdgeNo, EdgeRow, Item, Job, JobLine, JobName, Listed, Name, ObjectId,
    ObjectRow, Refusal, Status, TypeNo,
};
use std::alloc::AllocError;
use std::process::Abort;
use std::test::Fail;

fn shows(rt: &impl Abort, line: Result<Bytes, AllocError>, text: &[u8]) -> Result<(), AllocError> {
    let line = line?;
    assert!(rt; line.as_slice() == text);
    Ok(())
}

fn id(rt: &impl Abort, n: u64) -> ObjectId {
    ObjectId::new(n).expect(rt, "an id")
}

fn photo(rt: &impl Abort) -> ObjectRow {
    ObjectRow {
        id: id(rt, 2),
        kind: TypeNo(1),
        birth: 7,
        due: 0,
        at: 7,
        size: 1,
    }
}

fn owns(rt: &impl Abort) -> EdgeRow {
    let key = EdgeKey {
        edge: EdgeNo(0),
        from: id(rt, 1),
        to: id(rt, 2),
    };
    EdgeRow {
        key,
        birth: 2,
        size: 0,
    }
}

#[test]
fn lines(rt: HostRuntime) -> Result<(), Fail> {
    let alloc = rt.alloc();
    let kind = Name::of(alloc, b"photo")?;
    let edge = Name::of(alloc, b"owns")?;
    let one = id(&rt, 1);
    let unlinked = unlinked_line(alloc, 9, &edge, one, one, Some(41));
    shows(&rt, unlinked, b"9 unlinked owns 1 1 deleting 1 job 41\n")?;
    let restoring = restoring_line(alloc, 3, JobName::Expiry(one), 1);
    shows(&rt, restoring, b"3 restoring expiry 1 items 1\n")?;
    let work = work_line(alloc, 2, WorkEnd::Damaged { item: 1 });
    shows(&rt, work, b"work 2 damaged 1\n")?;
    let object = object_line(alloc, &photo(&rt), &kind, b"b", Some(Job(3)));
    shows(&rt, object, b"object 2 photo birth 7 \"b\" owner 3\n")?;
    let link = edge_line(alloc, &owns(&rt), &edge, b"\"\\ ~\x00\xfa");
    shows(
        &rt,
        link,
        b"edge owns 1 2 birth 2 \"\\\"\\\\ ~\\x00\\xfa\"\n",
    )?;
    let route = route_line(alloc, &kind, &[edge]);
    shows(&rt, route, b"route photo owns\n")?;
    let load = load_line(alloc, 8, 8, 24, 66, 1, 1);
    shows(
        &rt,
        load,
        b"load 8 objects 8 edges 24 history 66 jobs 1 restored 1\n",
    )?;
    let par = par_line(alloc, 8, 0, 25, false);
    shows(&rt, par, b"par accepted 8 refused 0 history 25\n")?;
    Ok(())
}

#[test]
fn jobs(rt: HostRuntime) -> Result<(), Fail> {
    let alloc = rt.alloc();
    let edge = Name::of(alloc, b"owns")?;
    let job = JobLine {
        job: Job(3),
        name: JobName::Named(40),
        root: id(&rt, 1),
        erased: 2,
        cut: 1,
        status: Status::Done {
            erased: 2,
            cut: 1,
            last: 5,
        },
    };
    let line = job_line(alloc, &job);
    shows(&rt, line, b"job 40 start 3 root 1 done erased 2 cut 1\n")?;
    let report = report_json(alloc, 0, 0, 7, &[job]);
    let text =
        b"{\"edges\":0,\"history\":7,\"jobs\":[{\"cut\":1,\"erased\":2,\"name\":\"40\",\"root\":1,\"start\":3,\"state\":\"done\"}],\"objects\":0}\n";
    shows(&rt, report, text)?;
    let listed = Listed {
        item: 0,
        row: Item::Edge {
            job: Job(3),
            row: owns(&rt),
            from_birth: 0,
            to_birth: 1,
        },
        cause: Cause::KeyTaken { birth: 6 },
    };
    let line = listed_line(alloc, &listed, &edge);
    shows(&rt, line, b"listed 0 edge owns 1 2 key taken birth 6\n")?;
    let wrong_end = Refusal::WrongEnd {
        id: id(&rt, 2),
        kind: TypeNo(1),
    };
    let line = refusal_line(alloc, &wrong_end, 3, &edge);
    shows(&rt, line, b"refused 5 at 3 wrong end 2 owns\n")?;
    let line = refusal_line(alloc, &Refusal::DiskFault { len: 6 }, 6, &edge);
    shows(&rt, line, b"down at 6\n")?;
    Ok(())
}
