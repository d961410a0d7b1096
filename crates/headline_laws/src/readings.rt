//! What bytes say: one document, or one first fault.

ghost use Rattle.std.specs.Prelude.{◌≡◌, ℕ, Bool, List};
ghost use Rattle.documents.specs.declared.document.Document.{Document};
ghost use Rattle.documents.specs.Documents.{IsDocument, IsFault};
ghost use Rattle.script_lang.specs.Scripts.{Fault};

/// The bytes of an input spell at most one document, or have one first fault, and never both, where blocks are served and where they
/// are not. So which script a run makes, or which fault it tells, its input alone decides. More bytes than a document may have are a
/// fault.
pub fn bytes_have_one_reading()
    ensures document { (blocks : Bool) (bytes : List ℕ) (one other : Document) → IsDocument blocks bytes one → IsDocument blocks bytes other → one ≡ other }
    ensures fault { (blocks : Bool) (bytes : List ℕ) (one other : Fault) → IsFault blocks bytes one → IsFault blocks bytes other → one ≡ other }
    ensures never_both { (blocks : Bool) (bytes : List ℕ) (document : Document) (fault : Fault) → IsDocument blocks bytes document →
        IsFault blocks bytes fault → ⊥ }
{}
