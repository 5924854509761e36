// Equality of documents.
ghost use Rattle.std.specs.Prelude.{◌≡◌, ◌↔◌, IsTrue};
ghost use Rattle.cs_document.specs.View.{doc_view};

use crate::Doc;
use crate::order::compare;

impl PartialEq for Doc {
    ghost use Rattle.cs_document.specs.Document.{document_eq};
    ghost use Rattle.cs_document.specs.Equality.{document_eq-laws};
    ghost use Rattle.std.specs.Cmp.{on_per};

    ghost eq = { λ a b. document_eq (doc_view a) (doc_view b) };

    ghost laws = { on_per doc_view document_eq-laws };

    /// Whether two documents are the same value; maps have no order.
    fn eq(&self, other: &Doc) -> bool
        ensures same { IsTrue result ↔ (doc_view self.now ≡ doc_view other.now) }
        ensures gives { result ≡ document_eq (doc_view self.now) (doc_view other.now) }
    {
        compare(self, other).is_eq()
    }
}
