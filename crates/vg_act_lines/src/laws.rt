//! What acts and replies are read from and what is printed of them are each other's inverse. These are laws, and do no work.

ghost use Rattle.std.specs.List.{All, join_with_byte};
ghost use Rattle.std.specs.Prelude.{◌≡◌, ◌^◌, ℕ, List, Some, true};
ghost use Rattle.vg_client_holds.specs.declared.act.Act.{Act};
ghost use Rattle.vg_client_holds.specs.declared.act.ActReply.{ActReply};
ghost use Rattle.vg_journal_words.specs.Text.{act_reply_text, act_text, pages_text};
ghost use Rattle.vg_line_words.specs.Words.{AreBelow, is_plain, numbers_of, parts_at};
ghost use Rattle.vg_act_lines.specs.Words.{act_words, reply_words};
ghost use Rattle.vg_act_lines.specs.Ranges.{ActInRange, ReplyInRange};
ghost use Rattle.vg_act_lines.specs.Read.{act_of, reply_of};

/// The text of an act is its words, which are plain; the act is read from them and from no other words. So two acts have the
/// same text only where they are the same.
pub fn acts_and_their_text()
    ensures text { (act : Act) → act_text act ≡ join_with_byte 32 (act_words act) }
    ensures plain { (act : Act) → ActInRange act → All (λ word. is_plain word ≡ true) (act_words act) }
    ensures said { (act : Act) → ActInRange act → act_of (act_words act) ≡ Some act }
    ensures back { (act : Act) → ActInRange act → act_of (parts_at 32 (act_text act)) ≡ Some act }
    ensures only { (act : Act) (words : List (List ℕ)) → act_of words ≡ Some act → (words ≡ act_words act) × ActInRange act }
    ensures one { (a b : Act) → ActInRange a → ActInRange b → act_text a ≡ act_text b → a ≡ b }
{}

/// The same of replies to acts.
pub fn replies_and_their_text()
    ensures text { (reply : ActReply) → act_reply_text reply ≡ join_with_byte 32 (reply_words reply) }
    ensures plain { (reply : ActReply) → ReplyInRange reply → All (λ word. is_plain word ≡ true) (reply_words reply) }
    ensures said { (reply : ActReply) → ReplyInRange reply → reply_of (reply_words reply) ≡ Some reply }
    ensures back { (reply : ActReply) → ReplyInRange reply → reply_of (parts_at 32 (act_reply_text reply)) ≡ Some reply }
    ensures only { (reply : ActReply) (words : List (List ℕ)) → reply_of words ≡ Some reply
        → (words ≡ reply_words reply) × ReplyInRange reply }
    ensures one { (a b : ActReply) → ReplyInRange a → ReplyInRange b → act_reply_text a ≡ act_reply_text b → a ≡ b }
{}

/// Page numbers are read from their text, and from nothing else.
pub fn pages_and_their_text()
    ensures back { (pages : List ℕ) → AreBelow (2 ^ 32) pages → numbers_of (2 ^ 32) (pages_text pages) ≡ Some pages }
    ensures only { (word pages : List ℕ) → numbers_of (2 ^ 32) word ≡ Some pages → (word ≡ pages_text pages) × AreBelow (2 ^ 32) pages }
{}
