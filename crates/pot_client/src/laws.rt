//! What holds of the texts of replies, and of the names of parts.

ghost use Rattle.std.specs.Prelude.{◌≡◌, ◌≢◌, ◌≤◌, ◌++◌, ℕ, List};
ghost use Rattle.pot_script.specs.declared.reply.Reply.{Reply};
ghost use Rattle.pot_script.specs.Replies.{reply_text};
ghost use Rattle.pot_client.specs.Parts.{EndsAsPart, suffix};
ghost use Rattle.pot_client.specs.ReplyTexts.{ArePrinted};
ghost use Rattle.pot_client.specs.ReplyWords.{IsReply};

/// No reply's text begins another's, so bytes are the texts of one list of replies at most.
pub fn one_reply()
    ensures first { (r s : Reply) (x y : List ℕ) → IsReply r → IsReply s
        → reply_text r ++ x ≡ reply_text s ++ y → (r ≡ s) × (x ≡ y) }
    ensures all { (bytes : List ℕ) (rs ss : List Reply)
        → ArePrinted bytes rs → ArePrinted bytes ss → rs ≡ ss }
{}

/// Parts that differ in their file or their number differ in their names. No part has the name of
/// its file, nor that of any file whose name does not end as that of a part.
pub fn names_of_parts()
    ensures differ { (a b : List ℕ) (m n : ℕ) → m ≤ 9999 → n ≤ 9999
        → a ++ suffix m ≡ b ++ suffix n → (a ≡ b) × (m ≡ n) }
    ensures own { (a : List ℕ) (n : ℕ) → a ++ suffix n ≢ a }
    ensures others { (a b : List ℕ) (n : ℕ)
        → n ≤ 9999 → (EndsAsPart b → ⊥) → a ++ suffix n ≢ b }
{}
