//! Broken schemas, and the routes of a ring.
use crate::{CheckFault, Checked, Fault, check};
use delf_model::{
    EdgeNo, EdgeRule, EdgeType, List, Name, NameFault, ObjectRule, ObjectType, Rules, RulesFault,
    Schema, TypeNo, is_spellable,
};
use std::alloc::Global;
use std::process::Abort;
use std::test::Fail;

/// A schema row by row, the first of them in line 3.
#[derive(Drop)]
struct Rows {
    schema: Schema,
    line: u32,
}

impl Rows {
    fn new(alloc: Global) -> Rows {
        Rows {
            schema: Schema {
                window: 100,
                objects: List::new(alloc),
                edges: List::new(alloc),
            },
            line: 3,
        }
    }

    fn object(&mut self, alloc: Global, name: &str, rule: ObjectRule) -> Result<(), Fail> {
        let name = Name::of(alloc, name.as_bytes())?;
        let line = self.line;
        self.schema.objects.push(ObjectType { name, rule, line })?;
        self.line = line.wrapping_add(1);
        Ok(())
    }

    fn edge(
        &mut self,
        alloc: Global,
        name: &str,
        from: &str,
        to: &str,
        rule: EdgeRule,
    ) -> Result<(), Fail> {
        let name = Name::of(alloc, name.as_bytes())?;
        let from = Name::of(alloc, from.as_bytes())?;
        let to = Name::of(alloc, to.as_bytes())?;
        let line = self.line;
        let edge = EdgeType {
            name,
            from,
            to,
            rule,
            line,
        };
        self.schema.edges.push(edge)?;
        self.line = line.wrapping_add(1);
        Ok(())
    }

    fn check(&self, rt: &impl Abort, alloc: Global) -> Result<Checked, CheckFault> {
        assert!(rt; is_spellable(&self.schema));
        check(alloc, &self.schema)
    }

    fn fault(&self, rt: &impl Abort, alloc: Global) -> Option<CheckFault> {
        self.check(rt, alloc).err()
    }
}

fn broken(fault: Fault) -> Option<CheckFault> {
    Some(CheckFault::Broken { fault })
}

/// Types that refer to each other in a ring without a start.
#[test]
fn ring(rt: HostRuntime) -> Result<(), Fail> {
    let mut rows = Rows::new(rt.alloc());
    rows.object(rt.alloc(), "user", ObjectRule::Directly)?;
    rows.object(rt.alloc(), "photo", ObjectRule::ByAny)?;
    rows.object(rt.alloc(), "album", ObjectRule::ByAny)?;
    rows.edge(rt.alloc(), "a", "photo", "album", EdgeRule::Deep)?;
    rows.edge(rt.alloc(), "b", "album", "photo", EdgeRule::Deep)?;
    assert_eq!(rt;
        rows.fault(&rt, rt.alloc()),
        broken(Fault::NoRoute { line: 4 })
    );
    Ok(())
}

#[test]
fn untaken(rt: HostRuntime) -> Result<(), Fail> {
    let mut rows = Rows::new(rt.alloc());
    rows.object(rt.alloc(), "user", ObjectRule::Directly)?;
    rows.object(rt.alloc(), "log", ObjectRule::NotDeleted)?;
    rows.edge(rt.alloc(), "w", "user", "log", EdgeRule::Deep)?;
    assert_eq!(rt;
        rows.fault(&rt, rt.alloc()),
        broken(Fault::CannotTake { line: 5 })
    );
    Ok(())
}

/// An edge type whose target is no type, and a type with no route: ends are tried first.
#[test]
fn undeclared(rt: HostRuntime) -> Result<(), Fail> {
    let mut rows = Rows::new(rt.alloc());
    rows.object(rt.alloc(), "photo", ObjectRule::ByAny)?;
    rows.edge(rt.alloc(), "w", "photo", "video", EdgeRule::Shallow)?;
    let fault = Fault::Undeclared {
        line: 4,
        target: true,
    };
    assert_eq!(rt; rows.fault(&rt, rt.alloc()), broken(fault));
    Ok(())
}

/// A name that stands three times is told at its second line.
#[test]
fn twice(rt: HostRuntime) -> Result<(), Fail> {
    let mut rows = Rows::new(rt.alloc());
    rows.object(rt.alloc(), "user", ObjectRule::Directly)?;
    rows.object(rt.alloc(), "photo", ObjectRule::ByAny)?;
    rows.object(rt.alloc(), "user", ObjectRule::Directly)?;
    rows.object(rt.alloc(), "user", ObjectRule::Directly)?;
    assert_eq!(rt;
        rows.fault(&rt, rt.alloc()),
        broken(Fault::Twice { line: 5 })
    );
    Ok(())
}

/// A deep edge type leads to `photo`; `session` expires, so its route is empty.
#[test]
fn passes(rt: HostRuntime) -> Result<(), Fail> {
    let mut rows = Rows::new(rt.alloc());
    rows.object(rt.alloc(), "user", ObjectRule::Directly)?;
    rows.object(rt.alloc(), "photo", ObjectRule::ByAny)?;
    rows.object(rt.alloc(), "session", ObjectRule::ShortTtl(60))?;
    rows.edge(rt.alloc(), "uses", "user", "session", EdgeRule::Deep)?;
    rows.edge(rt.alloc(), "owns", "user", "photo", EdgeRule::Deep)?;
    let checked = rows.check(&rt, rt.alloc())?;
    assert_eq!(rt; checked.rules().objects_len(), 3);
    assert_eq!(rt; checked.route(TypeNo(1), 0), Some(EdgeNo(1)));
    assert_eq!(rt; checked.route(TypeNo(1), 1), None);
    assert_eq!(rt; checked.route(TypeNo(2), 0), None);
    Ok(())
}

// Users own photos and sessions, and like photos; albums hold photos.
fn photo_types(alloc: Global, rows: &mut Rows) -> Result<(), Fail> {
    rows.object(alloc, "user", ObjectRule::Directly)?;
    rows.object(alloc, "photo", ObjectRule::ByAny)?;
    rows.object(alloc, "album", ObjectRule::Directly)?;
    rows.object(alloc, "session", ObjectRule::ShortTtl(60))
}

fn photo_edges(alloc: Global, rows: &mut Rows) -> Result<(), Fail> {
    rows.edge(alloc, "owns", "user", "photo", EdgeRule::Deep)?;
    rows.edge(alloc, "likes", "user", "photo", EdgeRule::Shallow)?;
    rows.edge(alloc, "holds", "album", "photo", EdgeRule::Refcount)?;
    rows.edge(alloc, "uses", "user", "session", EdgeRule::Deep)
}

/// Four types and four edge types; the one `by_any` type is reached by the least of two routes of one edge type.
#[test]
fn photos(rt: HostRuntime) -> Result<(), Fail> {
    let mut rows = Rows::new(rt.alloc());
    photo_types(rt.alloc(), &mut rows)?;
    photo_edges(rt.alloc(), &mut rows)?;
    let checked = rows.check(&rt, rt.alloc())?;
    assert_eq!(rt; checked.rules().objects_len(), 4);
    assert_eq!(rt; checked.rules().edges_len(), 4);
    assert_eq!(rt; checked.route(TypeNo(1), 0), Some(EdgeNo(0)));
    assert_eq!(rt; checked.route(TypeNo(1), 1), None);
    Ok(())
}

/// Two shortest routes of `d`, and a longer one that begins with a lower number: the least of the shortest ones.
#[test]
fn diamond(rt: HostRuntime) -> Result<(), Fail> {
    let mut rows = Rows::new(rt.alloc());
    rows.object(rt.alloc(), "a", ObjectRule::Directly)?;
    rows.object(rt.alloc(), "b", ObjectRule::ByAny)?;
    rows.object(rt.alloc(), "c", ObjectRule::ByAny)?;
    rows.object(rt.alloc(), "d", ObjectRule::ByAny)?;
    rows.edge(rt.alloc(), "dd", "d", "d", EdgeRule::Deep)?;
    rows.edge(rt.alloc(), "ab", "a", "b", EdgeRule::Deep)?;
    rows.edge(rt.alloc(), "ac", "a", "c", EdgeRule::Deep)?;
    rows.edge(rt.alloc(), "cd", "c", "d", EdgeRule::Deep)?;
    rows.edge(rt.alloc(), "bd", "b", "d", EdgeRule::Deep)?;
    let checked = rows.check(&rt, rt.alloc())?;
    assert_eq!(rt; checked.route(TypeNo(3), 0), Some(EdgeNo(3)));
    assert_eq!(rt; checked.route(TypeNo(3), 1), Some(EdgeNo(2)));
    assert_eq!(rt; checked.route(TypeNo(3), 2), None);
    Ok(())
}

/// A refcount edge type ends the route, whatever its source.
#[test]
fn counted(rt: HostRuntime) -> Result<(), Fail> {
    let mut rows = Rows::new(rt.alloc());
    rows.object(rt.alloc(), "x", ObjectRule::ByAny)?;
    rows.object(rt.alloc(), "y", ObjectRule::ByAny)?;
    rows.edge(rt.alloc(), "yx", "y", "x", EdgeRule::Deep)?;
    rows.edge(rt.alloc(), "xy", "x", "y", EdgeRule::Refcount)?;
    let checked = rows.check(&rt, rt.alloc())?;
    assert_eq!(rt; checked.route(TypeNo(0), 0), Some(EdgeNo(0)));
    assert_eq!(rt; checked.route(TypeNo(0), 1), Some(EdgeNo(1)));
    assert_eq!(rt; checked.route(TypeNo(0), 2), None);
    Ok(())
}

#[test]
fn names(rt: HostRuntime) -> Result<(), Fail> {
    let name = Name::of(rt.alloc(), b"abcdefghijklmnopqrstuvwxyz_01234")?;
    assert_eq!(rt; name.len(), 32);
    assert!(rt; name.same(&name));
    let longer = Name::of(rt.alloc(), b"abcdefghijklmnopqrstuvwxyz_012345");
    assert_eq!(rt; longer.err(), Some(NameFault::NotAName));
    Ok(())
}

#[test]
fn rules(rt: HostRuntime) -> Result<(), Fail> {
    let mut rows = Rows::new(rt.alloc());
    rows.object(rt.alloc(), "user", ObjectRule::Directly)?;
    assert!(rt; is_spellable(&rows.schema));
    let rules = Rules::of(rt.alloc(), &rows.schema)?;
    assert_eq!(rt; rules.window(), 100);
    assert_eq!(rt; rules.object(TypeNo(0)), Some(ObjectRule::Directly));
    assert_eq!(rt; rules.object(TypeNo(1)), None);
    assert_eq!(rt; rules.edge(EdgeNo(0)), None);
    rows.object(rt.alloc(), "photo", ObjectRule::ByAny)?;
    assert!(rt; is_spellable(&rows.schema));
    let unchecked = Rules::of(rt.alloc(), &rows.schema).err();
    assert_eq!(rt; unchecked, Some(RulesFault::Unchecked));
    Ok(())
}
