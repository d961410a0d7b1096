//! What holds of all heads.

ghost use Rattle.std.specs.Prelude.{◌≡◌, ◌++◌, ℕ, List, length};
ghost use Rattle.delf_model.specs.declared.entry.Entry.{Entry};
ghost use Rattle.delf_model.specs.declared.rows.Item.{Item};
ghost use Rattle.entry_codec.specs.EntryHead.{entry_head, IsEntry, IsEntryHead};
ghost use Rattle.entry_codec.specs.ItemHead.{item_head, IsItem, IsItemHead};

/// A head with a payload of one size is that of one entry, and no head of an entry begins another.
pub fn entry_heads()
    ensures one_entry { (a b : Entry) (head : List ℕ) (size : ℕ) → IsEntryHead a head size → IsEntryHead b head size → a ≡ b }
    ensures no_prefix { (a b : Entry) (x y : List ℕ) → IsEntry a → IsEntry b → entry_head a ++ x ≡ entry_head b ++ y → (entry_head a ≡ entry_head b) × (x ≡ y) }
{}

/// A head with a payload of one size is that of one item with one digest, and no head of an item begins another.
pub fn item_heads()
    ensures one_item { (a b : Item) (c d : List ℕ) (head : List ℕ) (size : ℕ) → IsItemHead a c head size → IsItemHead b d head size → (a ≡ b) × (c ≡ d) }
    ensures no_prefix { (a b : Item) (c d x y : List ℕ) → IsItem a → IsItem b → length c ≡ 32 → length d ≡ 32 → item_head a c ++ x ≡ item_head b d ++ y → (item_head a c ≡ item_head b d) × (x ≡ y) }
{}
