//! Whether a schema can be spelled as a document.
ghost use Rattle.std.specs.Prelude.{◌↔◌, IsTrue};
ghost use Rattle.delf_model.specs.Checked.{IsExpiry, IsSpellable};

use crate::schema::{ObjectRule, Schema};

/// Whether a schema text can spell the schema: at most 64 object types and 256 edge types, a window of at most
/// 31,536,000 seconds, and expiries of 1 to 7,776,000 seconds.
pub fn is_spellable(schema: &Schema) -> bool
    ensures { IsTrue result ↔ IsSpellable schema.now }
{
    let objects = schema.objects.as_slice();
    if schema.window > 31_536_000 || objects.len() > 64 || schema.edges.len() > 256 {
        return false;
    }
    for object in objects {
        if !is_expiry(object.rule) {
            return false;
        }
    }
    true
}

/// Whether the expiry, where the annotation has one, is within its limits.
fn is_expiry(rule: ObjectRule) -> bool
    ensures { IsTrue result ↔ IsExpiry rule }
{
    match rule {
        ObjectRule::ShortTtl(seconds) => 1 <= seconds && seconds <= 7_776_000,
        _ => true,
    }
}
