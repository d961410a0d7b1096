//! Each call that reads outside input, once where it succeeds.
ghost use Rattle.std.specs.Prelude.{IfOk};
ghost use Rattle.delf_model.specs.Checked.{IsSpellable};

use crate::{
    Bytes, EdgeNo, EdgeRule, EdgeType, List, Name, NameFault, ObjectId, ObjectRule, ObjectType,
    Rules, RulesFault, Schema, TypeNo,
};
use std::alloc::Global;
use std::test::Fail;

// users own photos, by this annotation of the edge and this one of users
fn photos(alloc: Global, rule: EdgeRule) -> Result<Schema, Fail>
    ensures { IfOk result (λ schema. IsSpellable schema) }
{
    let mut objects = List::new(alloc);
    objects.push(ObjectType {
        name: Name::of(alloc, b"user")?,
        rule: ObjectRule::Directly,
        line: 3,
    })?;
    objects.push(ObjectType {
        name: Name::of(alloc, b"photo")?,
        rule: ObjectRule::ByAny,
        line: 4,
    })?;
    let mut edges = List::new(alloc);
    edges.push(EdgeType {
        name: Name::of(alloc, b"owns")?,
        from: Name::of(alloc, b"user")?,
        to: Name::of(alloc, b"photo")?,
        rule,
        line: 5,
    })?;
    Ok(Schema {
        window: 100,
        objects,
        edges,
    })
}

#[test]
fn each_call_succeeds(rt: HostRuntime) -> Result<(), Fail> {
    let alloc = rt.alloc();
    assert_eq!(rt;
        ObjectId::new(999_999_999_999).map(|id| id.get()),
        Some(999_999_999_999)
    );
    assert!(rt; ObjectId::new(0).is_none());
    assert_eq!(rt; Bytes::of(alloc, b"ab")?.as_slice(), b"ab".as_slice());
    assert_eq!(rt; Name::of(alloc, b"a_1")?.as_slice(), b"a_1".as_slice());
    assert_eq!(rt; Name::of(alloc, b"A").err(), Some(NameFault::NotAName));
    let rules = Rules::of(alloc, &photos(alloc, EdgeRule::Deep)?)?;
    assert_eq!(rt; rules.window(), 100);
    assert_eq!(rt; rules.object(TypeNo(1)), Some(ObjectRule::ByAny));
    assert_eq!(rt;
        rules.edge(EdgeNo(0)).map(|shape| shape.rule),
        Some(EdgeRule::Deep)
    );
    assert_eq!(rt;
        Rules::of(alloc, &photos(alloc, EdgeRule::Shallow)?).err(),
        Some(RulesFault::Unchecked)
    );
    Ok(())
}
