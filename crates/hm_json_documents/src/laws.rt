//! Laws of documents.
ghost use Rattle.std.specs.Prelude.{◌≡◌, ◌≤◌, ℕ, List, IsUtf8};
ghost use Rattle.serde_json.specs.Data.{Data, depth};
ghost use Rattle.serde_json.specs.Read.{max_depth};
ghost use Rattle.serde_json.specs.Written.{compact_text};
ghost use Rattle.hm_json_documents.specs.Documents.{IsDocument, AreTexts, IsSound};

/// Bytes are the document of one value at most. The value of a document that is UTF-8 is sound and nests at most 127 deep,
/// and the text of any such value is UTF-8 and a document of it.
pub fn documents_are_read_again()
    ensures known { (bytes : List ℕ) (d e : Data) → IsDocument bytes d → IsDocument bytes e → d ≡ e }
    ensures sound { (bytes : List ℕ) (d : Data) → IsUtf8 bytes → IsDocument bytes d → IsSound d }
    ensures texts { (bytes : List ℕ) (d : Data) → IsUtf8 bytes → IsDocument bytes d → AreTexts d }
    ensures nests { (bytes : List ℕ) (d : Data) → IsDocument bytes d → depth d ≤ max_depth }
    ensures read { (d : Data) → IsSound d → depth d ≤ max_depth → IsDocument (compact_text d) d }
    ensures utf8 { (d : Data) → IsSound d → IsUtf8 (compact_text d) }
{}
