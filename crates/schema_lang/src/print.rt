//! How a schema is printed.

ghost use Rattle.std.specs.Prelude.{◌≡◌, ◌++◌, ◌∷◌, IfOk, OnOk, map, [], string_bytes};
ghost use Rattle.std.specs.Fmt.{decimal};
ghost use Rattle.std.specs.List.{flat_map};
ghost use Rattle.schema_lang.specs.Spelling.{IsSpellable, ReadsAs, spelling, printed_line, object_words, edge_words, edge_rule_word, header_words, window_words};

use delf_model::{Bytes, EdgeRule, EdgeType, ObjectRule, ObjectType, Schema};
use std::alloc::{AllocError, Global};

/// The lines `schema 1`, `window N`, the object types in order and the edge types in order, with single spaces and LF
/// after each.
pub fn print_schema(alloc: Global, schema: &Schema) -> Result<Bytes, AllocError>
    requires { IsSpellable schema.now }
    ensures spelled { IfOk result (λ bytes. bytes ≡ spelling schema.now) }
    ensures again { IfOk result (λ bytes. ReadsAs bytes schema.now) }
{
    spell(alloc, schema)
}

fn spell(alloc: Global, schema: &Schema) -> Result<Bytes, AllocError>
    ensures { IfOk result (λ bytes. bytes ≡ spelling schema.now) }
{
    let mut out = Vec::new(alloc);
    push_line(&mut out, b"schema", &[b"1".as_slice()])?;
    push_window(alloc, &mut out, schema.window)?;
    push_objects(alloc, &mut out, schema.objects.as_slice())?;
    push_edges(&mut out, schema.edges.as_slice())?;
    Ok(Bytes::from_vec(out))
}

// Adds a line of these words, of which there is at least one.
fn push_line(out: &mut Vec<u8>, first: &[u8], others: &[&[u8]]) -> Result<(), AllocError>
    ensures { OnOk result (out.new.items ≡ out.old.items ++ printed_line (first.now ∷ map (λ word. word.now) others.now)) }
{
    out.extend_from_slice(first)?;
    push_others(out, others)?;
    out.push(b'\n')?;
    Ok(())
}

fn push_others(out: &mut Vec<u8>, words: &[&[u8]]) -> Result<(), AllocError>
    ensures { OnOk result (out.new.items ≡ out.old.items ++ flat_map (λ word. 32 ∷ word) (map (λ word. word.now) words.now)) }
{
    for word in words {
        out.push(b' ')?;
        out.extend_from_slice(word)?;
    }
    Ok(())
}

fn push_window(alloc: Global, out: &mut Vec<u8>, window: u32) -> Result<(), AllocError>
    ensures { OnOk result (out.new.items ≡ out.old.items ++ printed_line (window_words window)) }
{
    let seconds = window.to_string(alloc)?;
    push_line(out, b"window", &[seconds.as_bytes()])
}

fn push_objects(alloc: Global, out: &mut Vec<u8>, objects: &[ObjectType]) -> Result<(), AllocError>
    ensures { OnOk result (out.new.items ≡ out.old.items ++ flat_map printed_line (map object_words objects.now)) }
{
    for object in objects {
        push_object(alloc, out, object)?;
    }
    Ok(())
}

fn push_object(alloc: Global, out: &mut Vec<u8>, object: &ObjectType) -> Result<(), AllocError>
    ensures { OnOk result (out.new.items ≡ out.old.items ++ printed_line (object_words object.now)) }
{
    let name = object.name.as_slice();
    match object.rule {
        ObjectRule::Directly => push_line(out, b"object", &[name, b"directly".as_slice()]),
        ObjectRule::DirectlyOnly => push_line(out, b"object", &[name, b"directly_only".as_slice()]),
        ObjectRule::ByAny => push_line(out, b"object", &[name, b"by_any".as_slice()]),
        ObjectRule::ShortTtl(seconds) => {
            let seconds = seconds.to_string(alloc)?;
            let words = [name, b"short_ttl".as_slice(), seconds.as_bytes()];
            push_line(out, b"object", &words)
        }
        ObjectRule::NotDeleted => push_line(out, b"object", &[name, b"not_deleted".as_slice()]),
    }
}

fn push_edges(out: &mut Vec<u8>, edges: &[EdgeType]) -> Result<(), AllocError>
    ensures { OnOk result (out.new.items ≡ out.old.items ++ flat_map printed_line (map edge_words edges.now)) }
{
    for edge in edges {
        push_edge(out, edge)?;
    }
    Ok(())
}

fn push_edge(out: &mut Vec<u8>, edge: &EdgeType) -> Result<(), AllocError>
    ensures { OnOk result (out.new.items ≡ out.old.items ++ printed_line (edge_words edge.now)) }
{
    let name = edge.name.as_slice();
    let source = edge.from.as_slice();
    let target = edge.to.as_slice();
    let rule = edge_rule_word(&edge.rule);
    let words = [name, source, target, rule];
    push_line(out, b"edge", &words)
}

fn edge_rule_word(rule: &EdgeRule) -> &[u8]
    ensures { result.now ≡ edge_rule_word rule.now }
{
    match rule {
        EdgeRule::Deep => b"deep",
        EdgeRule::Shallow => b"shallow",
        EdgeRule::Refcount => b"refcount",
    }
}
