//! What requests, replies and shapes are read from and what is printed of them are each other's inverse. These are laws, and do no
//! work.

ghost use Rattle.std.specs.List.{All, join_with_byte};
ghost use Rattle.std.specs.Prelude.{◌≡◌, ℕ, List, Some, true};
ghost use Rattle.vg_chain.specs.declared.shape.Shape.{Shape as Shapes};
ghost use Rattle.vg_journal_words.specs.Text.{shape_text};
ghost use Rattle.vg_device.specs.declared.request.Request.{Request};
ghost use Rattle.vg_device.specs.declared.request.Reply.{Reply};
ghost use Rattle.vg_machine.specs.Lines.{reply_text, request_text};
ghost use Rattle.vg_line_words.specs.Words.{is_plain, parts_at};
ghost use Rattle.vg_command_lines.specs.Shapes.{ShapeInRange, shape_of};
ghost use Rattle.vg_command_lines.specs.Words.{command_reply_words, request_words};
ghost use Rattle.vg_command_lines.specs.Ranges.{CommandReplyInRange, RequestInRange};
ghost use Rattle.vg_command_lines.specs.Read.{command_reply_of, request_of};

/// A shape is read from its word, which is plain, and from no other.
pub fn shapes_and_their_words()
    ensures plain { (shape : Shapes) → ShapeInRange shape → is_plain (shape_text shape) ≡ true }
    ensures back { (shape : Shapes) → ShapeInRange shape → shape_of (shape_text shape) ≡ Some shape }
    ensures only { (shape : Shapes) (word : List ℕ) → shape_of word ≡ Some shape → (word ≡ shape_text shape) × ShapeInRange shape }
{}

/// The text of a request is its words, which are plain; the request is read from them and from no other words. So two requests
/// have the same text only where they are the same.
pub fn requests_and_their_text()
    ensures text { (request : Request) → request_text request ≡ join_with_byte 32 (request_words request) }
    ensures plain { (request : Request) → RequestInRange request → All (λ word. is_plain word ≡ true) (request_words request) }
    ensures said { (request : Request) → RequestInRange request → request_of (request_words request) ≡ Some request }
    ensures back { (request : Request) → RequestInRange request → request_of (parts_at 32 (request_text request)) ≡ Some request }
    ensures only { (request : Request) (words : List (List ℕ)) → request_of words ≡ Some request
        → (words ≡ request_words request) × RequestInRange request }
    ensures one { (a b : Request) → RequestInRange a → RequestInRange b → request_text a ≡ request_text b → a ≡ b }
{}

/// The same of replies to commands.
pub fn command_replies_and_their_text()
    ensures text { (reply : Reply) → reply_text reply ≡ join_with_byte 32 (command_reply_words reply) }
    ensures plain { (reply : Reply) → CommandReplyInRange reply → All (λ word. is_plain word ≡ true) (command_reply_words reply) }
    ensures said { (reply : Reply) → CommandReplyInRange reply → command_reply_of (command_reply_words reply) ≡ Some reply }
    ensures back { (reply : Reply) → CommandReplyInRange reply → command_reply_of (parts_at 32 (reply_text reply)) ≡ Some reply }
    ensures only { (reply : Reply) (words : List (List ℕ)) → command_reply_of words ≡ Some reply
        → (words ≡ command_reply_words reply) × CommandReplyInRange reply }
    ensures one { (a b : Reply) → CommandReplyInRange a → CommandReplyInRange b → reply_text a ≡ reply_text b → a ≡ b }
{}
