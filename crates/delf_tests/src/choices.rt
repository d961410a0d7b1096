//! Rows on which rule comes first: which restore, which end, which reference, which name.

use crate::runs::prints;
use std::test::Fail;

// Albums hold photos and users pin them, both by references; users own photos.
const HOLDING: &str =
    "schema 1\nwindow 100\nobject user directly\nobject photo by_any\nobject album directly\nedge owns user photo deep\nedge holds album photo refcount\nedge pins user photo refcount\nscript\n";

#[test]
fn the_restore_that_came_first_goes_first(rt: HostRuntime) -> Result<(), Fail> {
    prints(
        &rt,
        rt.alloc(),
        HOLDING,
        "create 1 user \"a\"\ncreate 2 user \"b\"\ndelete 1 job 40\ndelete 2 job 41\nwork 10\nrestore 41\nrestore 40\nwork 1\nshow\nwork 10\nshow\n",
        "0 created 1\n1 created 2\n2 deleting 1 job 40\n3 deleting 2 job 41\nwork 2 idle\n6 restoring 41 items 1\n7 restoring 40 items 1\nwork 1\ngraph 1 0\nobject 2 user birth 1 \"b\"\nwork 1 idle\ngraph 2 0\nobject 1 user birth 0 \"a\"\nobject 2 user birth 1 \"b\"\n",
    )?;
    Ok(())
}

#[test]
fn an_end_of_another_type_is_refused(rt: HostRuntime) -> Result<(), Fail> {
    prints(
        &rt,
        rt.alloc(),
        HOLDING,
        "create 1 user\ncreate 2 user\ncreate 3 album\nlink owns 1 2\nlink owns 3 2\nlink holds 1 2\nshow\n",
        "0 created 1\n1 created 2\n2 created 3\nrefused 5 at 3 wrong end 2 user\nrefused 5 at 3 wrong end 3 album\nrefused 5 at 3 wrong end 1 user\ngraph 3 0\nobject 1 user birth 0 \"\"\nobject 2 user birth 1 \"\"\nobject 3 album birth 2 \"\"\n",
    )?;
    Ok(())
}

#[test]
fn a_reference_of_any_type_holds(rt: HostRuntime) -> Result<(), Fail> {
    prints(
        &rt,
        rt.alloc(),
        HOLDING,
        "create 1 user\ncreate 5 album\ncreate 3 photo\nlink holds 5 3\nlink pins 1 3\ndelete 5 job 40\nwork 10\nshow\nunlink pins 1 3 job 40\nunlink pins 1 3 job 41\nwork 10\njob 41\n",
        "0 created 1\n1 created 5\n2 created 3\n3 linked holds 5 3\n4 linked pins 1 3\n5 deleting 5 job 40\nwork 2 idle\ngraph 2 1\nobject 1 user birth 0 \"\"\nobject 3 photo birth 2 \"\"\nedge pins 1 3 birth 4 \"\"\nrefused 10 at 8 job taken 40\n8 unlinked pins 1 3 deleting 3 job 41\nwork 1 idle\njob 41 start 8 root 3 done erased 1 cut 0\n",
    )?;
    Ok(())
}

#[test]
fn a_name_is_looked_at_where_a_job_starts(rt: HostRuntime) -> Result<(), Fail> {
    prints(
        &rt,
        rt.alloc(),
        HOLDING,
        "create 1 user\ncreate 2 user\ncreate 3 photo\nlink pins 1 3\nlink pins 2 3\ndelete 1 job 40\nwork 10\nlink owns 2 3\nunlink owns 2 3 job 40\nunlink pins 2 3 job 40\n",
        "0 created 1\n1 created 2\n2 created 3\n3 linked pins 1 3\n4 linked pins 2 3\n5 deleting 1 job 40\nwork 2 idle\n8 linked owns 2 3\n9 unlinked owns 2 3\nrefused 10 at 10 job taken 40\n",
    )?;
    Ok(())
}
