//! That a run with ample memory ends by its causes alone, and prints what it is to print.

use delf_disk::{Bytes as DiskBytes, MemDisk, Numbers as DiskNumbers};
use delf_io::{Bytes, ListClock, MemSink, MemSource, Numbers};
use script_runner::{Status, run_plain};
use std::alloc::{AllocError, Global};
use std::process::Abort;
use std::test::Fail;

// Users own photos and sessions, and like photos; albums hold photos.
pub(crate) const PHOTOS: &str =
    "schema 1\nwindow 100\nobject user directly\nobject photo by_any\nobject album directly\nobject session short_ttl 60\nedge owns user photo deep\nedge likes user photo shallow\nedge holds album photo refcount\nedge uses user session deep\nscript\n";

pub fn run_words(
    alloc: Global,
    words: &[&str],
    document: &[&str],
    read_fails: &[u64],
    write_fails: &[u64],
) -> Result<(Status, MemSink), AllocError> {
    let mut owned = Vec::new(alloc);
    for word in words {
        owned.push(String::from_str(alloc, word)?)?;
    }
    let mut bytes = Vec::new(alloc);
    for part in document {
        bytes.extend_from_slice(part.as_bytes())?;
    }
    let bytes = Bytes::of(alloc, bytes.as_slice())?;
    let mut source = MemSource::of(bytes, Numbers::of(alloc, read_fails)?);
    let mut sink = MemSink::of(alloc, Numbers::of(alloc, write_fails)?);
    let mut clock = ListClock::of(Numbers::of(alloc, &[1000])?);
    let rig = MemDisk::of(
        alloc,
        DiskBytes::of(alloc, &[])?,
        DiskBytes::of(alloc, &[])?,
        DiskNumbers::of(alloc, &[])?,
    )?;
    let (status, _rig) = run_plain(
        alloc,
        owned.as_slice(),
        &mut source,
        &mut sink,
        rig,
        &mut clock,
    );
    Ok((status, sink))
}

// That the script under the schema is made to its end, and prints this text.
pub fn prints(
    rt: &impl Abort,
    alloc: Global,
    schema: &str,
    script: &str,
    text: &str,
) -> Result<(), Fail> {
    let (status, sink) = run_words(alloc, &["run", "--at", "0"], &[schema, script], &[], &[])?;
    assert_eq!(rt; status, Status::Done);
    assert_eq!(rt; status.code(), 0);
    assert_eq!(rt; sink.held(), text.as_bytes());
    Ok(())
}

#[test]
fn a_deletion_takes_what_was_owned_and_is_put_back(rt: HostRuntime) -> Result<(), Fail> {
    prints(
        &rt,
        rt.alloc(),
        PHOTOS,
        "create 1 user \"a\"\ncreate 2 photo \"b\"\nlink owns 1 2\ndelete 1 job 40\nwork 10\nshow\nrestore 40\nwork 10\nshow\n",
        "0 created 1\n1 created 2\n2 linked owns 1 2\n3 deleting 1 job 40\nwork 3 idle\ngraph 0 0\n7 restoring 40 items 3\nwork 3 idle\ngraph 2 1\nobject 1 user birth 0 \"a\"\nobject 2 photo birth 1 \"b\"\nedge owns 1 2 birth 2 \"\"\n",
    )?;
    Ok(())
}

#[test]
fn what_was_made_since_is_kept(rt: HostRuntime) -> Result<(), Fail> {
    prints(
        &rt,
        rt.alloc(),
        PHOTOS,
        "create 1 user \"a\"\ncreate 2 photo \"b\"\nlink owns 1 2\ndelete 1 job 40\nwork 10\nshow\ncreate 2 photo \"n\"\nrestore 40\nwork 10\njob 40\nshow\n",
        "0 created 1\n1 created 2\n2 linked owns 1 2\n3 deleting 1 job 40\nwork 3 idle\ngraph 0 0\n7 created 2\n8 restoring 40 items 3\nwork 3 idle\njob 40 start 3 root 1 restored put 1 listed 2\nlisted 2 object 2 taken birth 7\nlisted 0 edge owns 1 2 missing 2\ngraph 2 0\nobject 1 user birth 0 \"a\"\nobject 2 photo birth 7 \"n\"\n",
    )?;
    prints(
        &rt,
        rt.alloc(),
        PHOTOS,
        "create 1 user\ncreate 9 user\ncreate 2 photo\nlink owns 1 2\nlink owns 9 2\ndelete 1 job 40\ndelete 9 job 41\nwork 4\njobs\nrestore 40\nwork 10\njob 40\njob 41\n",
        "0 created 1\n1 created 9\n2 created 2\n3 linked owns 1 2\n4 linked owns 9 2\n5 deleting 1 job 40\n6 deleting 9 job 41\nwork 4\njobs 2\njob 40 start 5 root 1 done erased 2 cut 2\njob 41 start 6 root 9 pending 1\n11 restoring 40 items 4\nwork 5 idle\njob 40 start 5 root 1 restored put 3 listed 1\nlisted 2 edge owns 9 2 condemned 9 by 6\njob 41 start 6 root 9 done erased 1 cut 0\n",
    )?;
    Ok(())
}

#[test]
fn a_refcount_target_goes_with_its_last_reference(rt: HostRuntime) -> Result<(), Fail> {
    prints(
        &rt,
        rt.alloc(),
        PHOTOS,
        "create 5 album\ncreate 6 album\ncreate 3 photo \"p\"\nlink holds 5 3\nlink holds 6 3\ndelete 5 job 40\nwork 10\nget 3\nunlink holds 6 3 job 41\nwork 10\nshow\n",
        "0 created 5\n1 created 6\n2 created 3\n3 linked holds 5 3\n4 linked holds 6 3\n5 deleting 5 job 40\nwork 2 idle\nat 8 object 3 photo birth 2 \"p\"\n8 unlinked holds 6 3 deleting 3 job 41\nwork 1 idle\ngraph 1 0\nobject 6 album birth 1 \"\"\n",
    )?;
    prints(
        &rt,
        rt.alloc(),
        PHOTOS,
        "create 1 user\ncreate 5 album\ncreate 3 photo\nlink holds 5 3\nlink owns 1 3\ndelete 1 job 40\nwork 10\njob 40\nshow\n",
        "0 created 1\n1 created 5\n2 created 3\n3 linked holds 5 3\n4 linked owns 1 3\n5 deleting 1 job 40\nwork 4 idle\njob 40 start 5 root 1 done erased 2 cut 2\ngraph 1 0\nobject 5 album birth 1 \"\"\n",
    )?;
    prints(
        &rt,
        rt.alloc(),
        "schema 1\nwindow 0\nobject page directly\nedge refs page page refcount\nscript\n",
        "create 1 page\nlink refs 1 1\ncreate 2 page\nlink refs 2 1\nunlink refs 2 1 job 9\nunlink refs 1 1 job 9\nwork 10\nshow\n",
        "0 created 1\n1 linked refs 1 1\n2 created 2\n3 linked refs 2 1\n4 unlinked refs 2 1\n5 unlinked refs 1 1 deleting 1 job 9\nwork 1 idle\ngraph 1 0\nobject 2 page birth 2 \"\"\n",
    )?;
    Ok(())
}

#[test]
fn refusals_come_in_their_order(rt: HostRuntime) -> Result<(), Fail> {
    prints(
        &rt,
        rt.alloc(),
        "schema 1\nwindow 100\nobject user directly\nobject photo by_any\nedge owns user photo deep\nscript\n",
        "create 1 user \"a\"\ncreate 1 user \"b\"\nlink owns 1 2\ndelete 1 job 40\nwork 1\nshow\n",
        "0 created 1\nrefused 6 at 1 name taken 1 birth 0\nrefused 3 at 1 absent 2\n1 deleting 1 job 40\nwork 1\ngraph 0 0\n",
    )?;
    prints(
        &rt,
        rt.alloc(),
        PHOTOS,
        "create 1 user \"a\"\ncreate 2 photo \"b\"\nlink owns 1 2\ndelete 2 job 40\nlink owns 2 1\nlink owns 1 2\nunlink likes 1 2 job 9\nupdate 8 \"z\"\ndelete 1 job 40\nupdate 1 \"c\"\ndelete 1 job 41\nunlink owns 1 2 job 42\ncreate 1 user\ncreate 7 user\ndelete 7 job 40\n",
        "0 created 1\n1 created 2\n2 linked owns 1 2\nrefused 9 at 3 not direct by_any\nrefused 5 at 3 wrong end 2 photo\nrefused 7 at 3 edge taken birth 2\nrefused 8 at 3 no edge\nrefused 3 at 3 absent 8\n3 deleting 1 job 40\nrefused 4 at 4 condemned 1 by 3\nrefused 4 at 4 condemned 1 by 3\nrefused 4 at 4 condemned 1 by 3\nrefused 6 at 4 name taken 1 birth 0\n4 created 7\nrefused 10 at 5 job taken 40\n",
    )?;
    Ok(())
}

#[test]
fn a_restore_is_made_once_within_its_window(rt: HostRuntime) -> Result<(), Fail> {
    prints(
        &rt,
        rt.alloc(),
        PHOTOS,
        "create 1 user \"a\"\ncreate 2 photo \"b\"\nlink owns 1 2\ndelete 1 job 40\nwork 10\nshow\ntick 100\nwork 10\nrestore 40\n",
        "0 created 1\n1 created 2\n2 linked owns 1 2\n3 deleting 1 job 40\nwork 3 idle\ngraph 0 0\nwork 0 idle\n7 restoring 40 items 3\n",
    )?;
    prints(
        &rt,
        rt.alloc(),
        PHOTOS,
        "create 1 user \"a\"\ncreate 2 photo \"b\"\nlink owns 1 2\ndelete 1 job 40\nwork 10\nshow\ntick 101\nrestore 40\nwork 10\nrestore 40\njob 40\n",
        "0 created 1\n1 created 2\n2 linked owns 1 2\n3 deleting 1 job 40\nwork 3 idle\ngraph 0 0\nrefused 14 at 7 window over 100\nwork 1 idle\nrefused 14 at 8 window over 100\njob 40 start 3 root 1 purged\n",
    )?;
    prints(
        &rt,
        rt.alloc(),
        PHOTOS,
        "create 1 user \"a\"\ncreate 2 photo \"b\"\nlink owns 1 2\ndelete 1 job 40\nrestore 40\nwork 1\nrestore 40\nwork 10\nrestore 40\nrestore 40\nrestore 77\nwork 2\nlink owns 1 2\nwork 10\njob 40\n",
        "0 created 1\n1 created 2\n2 linked owns 1 2\n3 deleting 1 job 40\nrefused 12 at 4 pending 1\nwork 1\nrefused 12 at 5 pending 2\nwork 2 idle\n7 restoring 40 items 3\nrefused 13 at 8 restored before 7\nrefused 11 at 8 no job\nwork 2\n10 linked owns 1 2\nwork 1 idle\njob 40 start 3 root 1 restored put 2 listed 1\nlisted 0 edge owns 1 2 key taken birth 10\n",
    )?;
    Ok(())
}

// A schema with 256 edge types, whose names tell their numbers: the first half deep, the others refcount.
fn all_edge_types(alloc: Global) -> Result<String, Fail> {
    let mut schema = String::from_str(
        alloc,
        "schema 1\nwindow 100\nobject user directly\nobject photo by_any\n",
    )?;
    for number in 0..256u32 {
        let rule = if number < 128 { "deep" } else { "refcount" };
        let line = format!(in alloc; "edge e{number} user photo {rule}\n")?;
        schema.push_str(line.as_str())?;
    }
    schema.push_str("script\n")?;
    Ok(schema)
}

#[test]
fn edge_types_with_great_numbers_are_put_back(rt: HostRuntime) -> Result<(), Fail> {
    let schema = all_edge_types(rt.alloc())?;
    prints(
        &rt,
        rt.alloc(),
        schema.as_str(),
        "create 1 user \"a\"\ncreate 2 photo \"b\"\ncreate 3 photo\nlink e64 1 2 \"x\"\nlink e255 1 3 \"y\"\ndelete 1 job 7\nwork 10\nshow\ncrash 0\nrestore 7\nwork 10\njob 7\nshow\n",
        "0 created 1\n1 created 2\n2 created 3\n3 linked e64 1 2\n4 linked e255 1 3\n5 deleting 1 job 7\nwork 5 idle\ngraph 0 0\nopened 11\n11 restoring 7 items 5\nwork 5 idle\njob 7 start 5 root 1 restored put 5 listed 0\ngraph 3 2\nobject 1 user birth 0 \"a\"\nobject 2 photo birth 1 \"b\"\nobject 3 photo birth 2 \"\"\nedge e64 1 2 birth 3 \"x\"\nedge e255 1 3 birth 4 \"y\"\n",
    )
}

#[test]
fn what_expires_goes_by_itself(rt: HostRuntime) -> Result<(), Fail> {
    prints(
        &rt,
        rt.alloc(),
        PHOTOS,
        "create 7 session \"s\"\ntick 59\nwork 10\ntick 1\nwork 10\nrestore expiry 7\nwork 10\njobs\n",
        "0 created 7\nwork 0 idle\nwork 2 idle\n3 restoring expiry 7 items 1\nwork 3 idle\njobs 2\njob expiry 7 start 1 root 7 restored put 1 listed 0\njob expiry 7 start 5 root 7 done erased 1 cut 0\n",
    )?;
    Ok(())
}

#[test]
fn a_user_goes_with_all_that_is_theirs(rt: HostRuntime) -> Result<(), Fail> {
    prints(
        &rt,
        rt.alloc(),
        "schema 1\nwindow 2592000\nobject user directly\nobject post directly\nobject comment directly\nobject media by_any\nobject token short_ttl 3600\nobject audit not_deleted\nedge wrote user post deep\nedge made user comment deep\nedge on post comment deep\nedge shows post media refcount\nedge likes user post shallow\nedge login user token deep\nedge seen user audit shallow\nscript\n",
        "create 1 user \"ann\"\ncreate 2 user \"bob\"\ncreate 10 post \"hi\"\ncreate 11 comment \"yo\"\ncreate 20 media \"jpg\"\ncreate 30 token \"t\"\ncreate 40 audit \"log\"\nlink wrote 1 10\nlink made 2 11\nlink on 10 11\nlink shows 10 20\nlink likes 2 10\nlink login 1 30\nlink seen 1 40\ndelete 1 job 7\nwork 100\njob 7\nshow\nrestore 7\nwork 100\njob 7\n",
        "0 created 1\n1 created 2\n2 created 10\n3 created 11\n4 created 20\n5 created 30\n6 created 40\n7 linked wrote 1 10\n8 linked made 2 11\n9 linked on 10 11\n10 linked shows 10 20\n11 linked likes 2 10\n12 linked login 1 30\n13 linked seen 1 40\n14 deleting 1 job 7\nwork 12 idle\njob 7 start 14 root 1 done erased 5 cut 7\ngraph 2 0\nobject 2 user birth 1 \"bob\"\nobject 40 audit birth 6 \"log\"\n27 restoring 7 items 12\nwork 12 idle\njob 7 start 14 root 1 restored put 12 listed 0\n",
    )?;
    Ok(())
}

#[test]
fn what_is_live_is_told(rt: HostRuntime) -> Result<(), Fail> {
    prints(
        &rt,
        rt.alloc(),
        PHOTOS,
        "create 1 user \"a\"\nupdate 1 \"b\"\ncreate 2 photo\nlink owns 1 2 \"e\"\ndelete 1 job 5\nshow\nget 1\nget 3\nreport\n",
        "0 created 1\n1 updated 1\n2 created 2\n3 linked owns 1 2\n4 deleting 1 job 5\ngraph 2 1\nobject 1 user birth 0 \"b\" owner 4\nobject 2 photo birth 2 \"\"\nedge owns 1 2 birth 3 \"e\"\nat 5 object 1 user birth 0 \"b\" owner 4\nat 5 absent 3\n{\"edges\":1,\"history\":5,\"jobs\":[{\"cut\":0,\"erased\":0,\"name\":\"5\",\"root\":1,\"start\":4,\"state\":\"pending\"}],\"objects\":2}\n",
    )
}

// That these words run the document from the moment 5 or 1000 on.
fn starts(rt: &impl Abort, alloc: Global, words: &[&str]) -> Result<(), Fail> {
    let script = "create 7 session\nwork 1\ntick 60\nwork 1\ndelete 7 job 1\n";
    let (status, sink) = run_words(alloc, words, &[PHOTOS, script], &[], &[])?;
    assert_eq!(rt; status, Status::Done);
    assert_eq!(rt;
        sink.held(),
        b"0 created 7\nwork 0 idle\nwork 1\nrefused 4 at 2 condemned 7 by 1\n".as_slice()
    );
    Ok(())
}

// That these words are no command.
fn is_usage(rt: &impl Abort, alloc: Global, words: &[&str]) -> Result<(), Fail> {
    let (status, sink) = run_words(alloc, words, &[PHOTOS], &[], &[])?;
    assert_eq!(rt; status, Status::Usage);
    assert_eq!(rt;
        sink.held(),
        b"usage: delf run [--at N] | check | load N\n".as_slice()
    );
    Ok(())
}

#[test]
fn the_words_give_the_start(rt: HostRuntime) -> Result<(), Fail> {
    let alloc = rt.alloc();
    starts(&rt, alloc, &["run", "--at=5"])?;
    starts(&rt, alloc, &["run"])?;
    is_usage(&rt, alloc, &["run", "--at", "05"])?;
    is_usage(&rt, alloc, &["run", "--at="])?;
    is_usage(&rt, alloc, &["walk"])?;
    is_usage(&rt, alloc, &["--help"])?;
    is_usage(&rt, alloc, &[])?;
    is_usage(&rt, alloc, &["check", "it"])?;
    is_usage(&rt, alloc, &["load"])?;
    is_usage(&rt, alloc, &["load", "7"])?;
    is_usage(&rt, alloc, &["load", "08"])?;
    is_usage(&rt, alloc, &["load", "20001"])?;
    is_usage(&rt, alloc, &["run", "--at"])?;
    Ok(())
}

// That the document is not run, for the fault of this line.
fn refuses(
    rt: &impl Abort,
    alloc: Global,
    document: &str,
    line: u32,
    text: &str,
) -> Result<(), Fail> {
    let (status, sink) = run_words(alloc, &["run", "--at", "5"], &[document], &[], &[])?;
    assert_eq!(rt; status, Status::BadDocument { line });
    assert_eq!(rt; sink.held(), text.as_bytes());
    Ok(())
}

#[test]
fn the_first_fault_is_told(rt: HostRuntime) -> Result<(), Fail> {
    let alloc = rt.alloc();
    refuses(&rt, alloc, "", 1, "line 1: malformed\n")?;
    refuses(
        &rt,
        alloc,
        "schema 1\nwindow 31536001\n",
        2,
        "line 2: out of range\n",
    )?;
    refuses(
        &rt,
        alloc,
        "schema 1\nwindow 0\nobject a directly\nobject a directly\nscript\nnonsense\n",
        4,
        "line 4: name a declared twice\n",
    )?;
    refuses(
        &rt,
        alloc,
        "schema 1\nwindow 0\nobject a directly\nedge e a b deep\n",
        4,
        "line 4: type b not declared\n",
    )?;
    refuses(
        &rt,
        alloc,
        "schema 1\nwindow 0\nobject a not_deleted\nedge e a a deep\n",
        4,
        "line 4: edge e cannot take a\n",
    )?;
    refuses(
        &rt,
        alloc,
        "schema 1\nwindow 0\nobject a by_any\n",
        3,
        "line 3: type a has no route\n",
    )?;
    refuses(
        &rt,
        alloc,
        "schema 1\nwindow 0\nobject a directly\nscript\ncreate 1 b\n",
        5,
        "line 5: unknown name b\n",
    )?;
    refuses(
        &rt,
        alloc,
        "schema 1\nwindow 0\nobject a directly\nscript\npar workers 1 turns 1\nlane\nend\n",
        5,
        "line 5: malformed\n",
    )
}

#[test]
fn faults_of_the_outside_end_a_run(rt: HostRuntime) -> Result<(), Fail> {
    let document = [PHOTOS, "create 7 user\ncreate 7 user\n"];
    let (status, sink) = run_words(rt.alloc(), &["run"], &document, &[2], &[])?;
    assert_eq!(rt; status, Status::ReadFault);
    assert_eq!(rt; sink.held(), b"".as_slice());
    let (status, sink) = run_words(rt.alloc(), &["run"], &document, &[], &[2])?;
    assert_eq!(rt; status, Status::WriteFault { done: 1 });
    assert_eq!(rt; sink.held(), b"0 created 7\n".as_slice());
    Ok(())
}

// That the script under the schema ends with this status, and prints this text.
fn ends(
    rt: &impl Abort,
    alloc: Global,
    script: &str,
    status: Status,
    text: &str,
) -> Result<(), Fail> {
    let (ended, sink) = run_words(alloc, &["run", "--at", "0"], &[PHOTOS, script], &[], &[])?;
    assert_eq!(rt; ended, status);
    assert_eq!(rt; sink.held(), text.as_bytes());
    Ok(())
}

#[test]
fn a_torn_gate_is_closed_or_open(rt: HostRuntime) -> Result<(), Fail> {
    let down = "fail 3\ncreate 1 user \"a\"\ncreate 2 photo\n";
    ends(
        &rt,
        rt.alloc(),
        down,
        Status::Down { len: 0 },
        "down at 0\nrefused 1 at 0 down\n",
    )?;
    for (pick, opened) in [("0", "0"), ("1", "1"), ("2", "0"), ("3", "0")] {
        let mut script = String::from_str(rt.alloc(), down)?;
        script.push_str("crash ")?;
        script.push_str(pick)?;
        script.push_str("\n")?;
        let mut text = String::from_str(rt.alloc(), "down at 0\nrefused 1 at 0 down\nopened ")?;
        text.push_str(opened)?;
        text.push_str("\n")?;
        ends(
            &rt,
            rt.alloc(),
            script.as_str(),
            Status::Done,
            text.as_str(),
        )?;
    }
    Ok(())
}

#[test]
fn a_step_that_was_stopped_is_made_again(rt: HostRuntime) -> Result<(), Fail> {
    ends(
        &rt,
        rt.alloc(),
        "create 1 user \"a\"\ncreate 2 photo \"b\"\nlink owns 1 2\ndelete 1 job 40\nfail 5\nwork 10\nget 1\nshow\nwork 2\nreport\njobs\ncrash 0\nwork 10\njob 40\ncrash 7\nreport\n",
        Status::Done,
        "0 created 1\n1 created 2\n2 linked owns 1 2\n3 deleting 1 job 40\nwork 0 down at 4\nrefused 1 at 4 down\nrefused 1 at 4 down\nrefused 1 at 4 down\nrefused 1 at 4 down\njobs 1\njob 40 start 3 root 1 pending 1\nopened 4\nwork 3 idle\njob 40 start 3 root 1 done erased 2 cut 1\nopened 7\n{\"edges\":0,\"history\":7,\"jobs\":[{\"cut\":1,\"erased\":2,\"name\":\"40\",\"root\":1,\"start\":3,\"state\":\"done\"}],\"objects\":0}\n",
    )
}

#[test]
fn a_fault_in_a_read_or_at_the_end_takes_the_store_down(rt: HostRuntime) -> Result<(), Fail> {
    ends(
        &rt,
        rt.alloc(),
        "create 1 user\nget 1\n",
        Status::Done,
        "0 created 1\nat 1 object 1 user birth 0 \"\"\n",
    )?;
    ends(
        &rt,
        rt.alloc(),
        "create 1 user \"a\"\nfail 1\nget 1\nget 1\n",
        Status::Down { len: 1 },
        "0 created 1\ndown at 1\nrefused 1 at 1 down\n",
    )?;
    ends(
        &rt,
        rt.alloc(),
        "create 1 user \"a\"\nfail 1\n",
        Status::Down { len: 1 },
        "0 created 1\ndown at 1\n",
    )
}
