//! What the lines of a journal are read from and what is printed of them are each other's inverse. These are laws, and do no
//! work.

ghost use Rattle.std.specs.List.{All};
ghost use Rattle.std.specs.Prelude.{◌≡◌, ◌≤◌, ◌+◌, ◌==◌, ◌++◌, [], length, ℕ, Bool, List, Some, true, bit_and, codes, decimal, if◌then◌else◌};
ghost use Rattle.vg_client_holds.specs.Setup.{IsDisplay};
ghost use Rattle.vg_scanout.specs.declared.scanout.Frame.{Frame};
ghost use Rattle.vg_journal.specs.Text.{counts_text, display_line, entry_line, frame_line, host_text, queues_text, text_of, title_text, without_line};
ghost use Rattle.vg_line_words.specs.Words.{AreBelow, is_plain, lacks, parts_at};
ghost use Rattle.vg_journal_lines.specs.declared.head.Feature.{Feature as Features};
ghost use Rattle.vg_journal_lines.specs.declared.head.Version.{Version as Versions};
ghost use Rattle.vg_journal_lines.specs.declared.counts.FrameHead.{FrameHead as Heads};
ghost use Rattle.vg_journal_lines.specs.Versions.{limits_of, version_of};
ghost use Rattle.vg_journal_lines.specs.Words.{clients_words, display_words, end_words, feature_name, frame_words, frames_words, head_of, host_words, joined, line_of, memory_words, queues_words, rings_words, title_words, without_words};
ghost use Rattle.vg_journal_lines.specs.Read.{clients_of, display_of, frame_of, frames_of, is_end, is_host, is_queues, memory_of, rings_of, title_of, without_of};
ghost use Rattle.vg_machine.specs.Entries.{Entry};
ghost use Rattle.vg_journal_lines.specs.Entries.{EntryInRange, entry_of, entry_words};
ghost use Rattle.vg_journal.specs.declared.journal.Journal.{Journal as Journals};
ghost use Rattle.vg_journal_lines.specs.declared.state.State.{State as States};
ghost use Rattle.vg_journal_lines.specs.declared.state.Stage.TheVariants as stages;
ghost use Rattle.vg_journal_lines.specs.States.{Item, run, start};
ghost use Rattle.vg_journal_lines.specs.Moves.{IsKept};
ghost use Rattle.vg_journal_lines.specs.Refusals.{GoesNoMore, IsJournal, IsRefusedAt};
ghost use Rattle.vg_journal_lines.specs.Pieces.{IsReadAs, JournalInRange, host_pieces, pieces_of, queues_pieces, whole};
ghost use Rattle.vg_journal_lines.specs.Ranges.{HeadInRange, IsCount};
ghost use Rattle.vg_limits.specs.Limits.{version_2};

use vg_command_lines::{command_replies_and_their_text, requests_and_their_text};

/// The first line and its words, by the version, which goes with the sizes of both queues.
pub fn title_and_its_words()
    ensures text { (queues : ℕ × ℕ) → title_text queues ≡ line_of (title_words (version_of queues)) }
    ensures plain { (version : Versions) → All (λ word. is_plain word ≡ true) (title_words version) }
    ensures back { (version : Versions) → title_of (title_words version) ≡ Some version }
    ensures only { (version : Versions) (words : List (List ℕ)) → title_of words ≡ Some version → words ≡ title_words version }
{}

/// The line of a display is its words, which are plain; the display is read from them and from no other words.
pub fn displays_and_their_words()
    ensures text { (n : ℕ) (size : ℕ × ℕ) → display_line n size ≡ line_of (display_words n size) }
    ensures plain { (version : Versions) (n : ℕ) (size : ℕ × ℕ) → IsCount n → IsDisplay (limits_of version) size
        → All (λ word. is_plain word ≡ true) (display_words n size) }
    ensures back { (version : Versions) (n : ℕ) (size : ℕ × ℕ) → IsCount n → IsDisplay (limits_of version) size
        → display_of (limits_of version) n (display_words n size) ≡ Some size }
    ensures only { (version : Versions) (n : ℕ) (size : ℕ × ℕ) (words : List (List ℕ)) → display_of (limits_of version) n words ≡ Some size
        → (words ≡ display_words n size) × IsCount n × IsDisplay (limits_of version) size }
{}

/// The same of the line of the pages.
pub fn pages_and_their_words()
    ensures text { (pages : ℕ) → codes "memory " ++ decimal pages ++ codes "\n" ≡ line_of (memory_words pages) }
    ensures plain { (pages : ℕ) → pages ≤ 16384 → All (λ word. is_plain word ≡ true) (memory_words pages) }
    ensures back { (pages : ℕ) → 1 ≤ pages → pages ≤ 16384 → memory_of (memory_words pages) ≡ Some pages }
    ensures only { (pages : ℕ) (words : List (List ℕ)) → memory_of words ≡ Some pages
        → (words ≡ memory_words pages) × (1 ≤ pages) × (pages ≤ 16384) }
{}

/// The same of the line of the queues, which version 2 has.
pub fn queues_and_their_words()
    ensures text { (queues : ℕ × ℕ) → queues_text queues ≡ whole (queues_pieces (version_of queues)) }
    ensures plain { All (λ word. is_plain word ≡ true) queues_words }
    ensures back { is_queues queues_words ≡ true }
    ensures only { (words : List (List ℕ)) → is_queues words ≡ true → words ≡ queues_words }
{}

/// The same of the line of a feature that is left out.
pub fn features_and_their_words()
    ensures text { (accepted bit : ℕ) (feature : Features) → without_line accepted bit (feature_name feature)
        ≡ (if bit_and accepted bit == 0 then line_of (without_words feature) else []) }
    ensures plain { (feature : Features) → All (λ word. is_plain word ≡ true) (without_words feature) }
    ensures back { (feature : Features) → without_of (without_words feature) ≡ Some feature }
    ensures only { (feature : Features) (words : List (List ℕ)) → without_of words ≡ Some feature → words ≡ without_words feature }
{}

/// The same of the line of the clients.
pub fn clients_and_their_words()
    ensures text { (clients : ℕ) → codes "clients " ++ decimal clients ++ codes "\n" ≡ line_of (clients_words clients) }
    ensures plain { (version : Versions) (clients : ℕ) → clients ≤ (limits_of version).clients
        → All (λ word. is_plain word ≡ true) (clients_words clients) }
    ensures back { (version : Versions) (clients : ℕ) → clients ≤ (limits_of version).clients
        → clients_of (limits_of version) (clients_words clients) ≡ Some clients }
    ensures only { (version : Versions) (clients : ℕ) (words : List (List ℕ)) → clients_of (limits_of version) words ≡ Some clients
        → (words ≡ clients_words clients) × (clients ≤ (limits_of version).clients) }
{}

/// The same of the line of the host, which stands where there is one.
pub fn host_and_its_words()
    ensures text { (host : Bool) → host_text host ≡ whole (host_pieces host) }
    ensures plain { All (λ word. is_plain word ≡ true) host_words }
    ensures back { is_host host_words ≡ true }
    ensures only { (words : List (List ℕ)) → is_host words ≡ true → words ≡ host_words }
{}

/// The line of entry n of so many clients, with the host, is its words; the entry is read from them, and from no other words. So two entries have
/// the same line only where they are the same.
pub fn entries_and_their_words()
    ensures text { (n : ℕ) (entry : Entry) → entry_line n entry ≡ line_of (entry_words n entry) }
    ensures parts { (n clients : ℕ) (entry : Entry) → clients ≤ version_2.clients + 1 → IsCount n → EntryInRange clients entry
        → parts_at 32 (joined (entry_words n entry)) ≡ entry_words n entry }
    ensures line { (n clients : ℕ) (entry : Entry) → clients ≤ version_2.clients + 1 → IsCount n → EntryInRange clients entry
        → lacks 10 (joined (entry_words n entry)) ≡ true }
    ensures back { (n clients : ℕ) (entry : Entry) → clients ≤ version_2.clients + 1 → IsCount n → EntryInRange clients entry
        → entry_of n clients (entry_words n entry) ≡ Some entry }
    ensures only { (n clients : ℕ) (entry : Entry) (words : List (List ℕ)) → clients ≤ version_2.clients + 1 → entry_of n clients words ≡ Some entry
        → (words ≡ entry_words n entry) × IsCount n × EntryInRange clients entry }
    ensures one { (n clients : ℕ) (a b : Entry) → clients ≤ version_2.clients + 1 → IsCount n → EntryInRange clients a → EntryInRange clients b
        → entry_line n a ≡ entry_line n b → a ≡ b }
{
    requests_and_their_text();
    command_replies_and_their_text();
}

/// The text of the counts is the words of two lines.
pub fn counts_and_their_lines()
    ensures { (control cursor frames : ℕ) → counts_text control cursor frames
        ≡ line_of (rings_words (control, cursor)) ++ line_of (frames_words frames) }
{}

/// The line that counts the commands of each queue, and its words.
pub fn rings_and_their_words()
    ensures plain { (counts : ℕ × ℕ) → IsCount counts.0 → IsCount counts.1 → All (λ word. is_plain word ≡ true) (rings_words counts) }
    ensures back { (counts : ℕ × ℕ) → IsCount counts.0 → IsCount counts.1 → rings_of (rings_words counts) ≡ Some counts }
    ensures only { (counts : ℕ × ℕ) (words : List (List ℕ)) → rings_of words ≡ Some counts
        → (words ≡ rings_words counts) × IsCount counts.0 × IsCount counts.1 }
{}

/// The line that counts the frames, and its words.
pub fn frames_and_their_words()
    ensures plain { (frames : ℕ) → IsCount frames → All (λ word. is_plain word ≡ true) (frames_words frames) }
    ensures back { (frames : ℕ) → IsCount frames → frames_of (frames_words frames) ≡ Some frames }
    ensures only { (frames : ℕ) (words : List (List ℕ)) → frames_of words ≡ Some frames
        → (words ≡ frames_words frames) × IsCount frames }
{}

/// The line in front of a frame's pixels is its words, which are plain; what it says is read from them and from no other words.
pub fn frame_heads_and_their_words()
    ensures text { (n : ℕ) (frame : Frame) → frame_line n frame ≡ line_of (frame_words n (head_of frame)) }
    ensures plain { (n : ℕ) (head : Heads) → IsCount n → HeadInRange head → All (λ word. is_plain word ≡ true) (frame_words n head) }
    ensures back { (n : ℕ) (head : Heads) → IsCount n → HeadInRange head → frame_of n (frame_words n head) ≡ Some head }
    ensures only { (n : ℕ) (head : Heads) (words : List (List ℕ)) → frame_of n words ≡ Some head
        → (words ≡ frame_words n head) × IsCount n × HeadInRange head }
{}

/// The last line and its words.
pub fn end_and_its_words()
    ensures text { codes "end\n" ≡ line_of end_words }
    ensures plain { All (λ word. is_plain word ≡ true) end_words }
    ensures back { is_end end_words ≡ true }
    ensures only { (words : List (List ℕ)) → is_end words ≡ true → words ≡ end_words }
{}

/// The text of a journal is its pieces with a line end behind each.
pub fn journals_and_their_pieces()
    ensures { (journal : Journals) → text_of journal ≡ whole (pieces_of journal) }
{
    requests_and_their_text();
    command_replies_and_their_text();
}

/// Pieces that may come next one after another are told by the text that they make.
pub fn pieces_and_their_text()
    ensures { (state : States) (ps qs : List (List ℕ)) (a b : States × List Item) → run state ps ≡ Some a → run state qs ≡ Some b
        → whole ps ≡ whole qs → ps ≡ qs }
{}

/// A journal is read from its pieces, and from no others: what is read to its end are the pieces of a journal. Two journals have
/// the same text only where they are the same.
pub fn journals_and_their_text()
    ensures read { (journal : Journals) → JournalInRange journal → IsReadAs (pieces_of journal) journal }
    ensures one_read { (pieces : List (List ℕ)) (a b : Journals) → JournalInRange a → JournalInRange b
        → IsReadAs pieces a → IsReadAs pieces b → a ≡ b }
    ensures only { (pieces : List (List ℕ)) (done : States × List Item) → All (λ piece. AreBelow 256 piece) pieces
        → run start pieces ≡ Some done → done.0.stage ≡ stages.Done
        → (journal : Journals) × JournalInRange journal × (pieces ≡ pieces_of journal) }
    ensures one { (a b : Journals) → JournalInRange a → JournalInRange b → text_of a ≡ text_of b → a ≡ b }
{
    requests_and_their_text();
    command_replies_and_their_text();
}

/// A text that is read to its end is a journal's. Where no piece goes on any more the text is refused at that piece, and at no other. The counts
/// of a state on the way are small.
pub fn journals_and_their_refusals()
    ensures ended { (bytes : List ℕ) (front : List (List ℕ)) (read : States × List Item) → AreBelow 256 bytes → run start front ≡ Some read
        → bytes ≡ whole front → read.0.stage ≡ stages.Done
        → (journal : Journals) × IsJournal bytes journal × IsReadAs front journal }
    ensures refused { (bytes : List ℕ) (front : List (List ℕ)) (rest : List ℕ) (read : States × List Item) → AreBelow 256 bytes
        → run start front ≡ Some read → bytes ≡ whole front ++ rest → GoesNoMore read.0 rest
        → (read.0.stage ≡ stages.Done → rest ≡ [] → ⊥) → IsRefusedAt bytes (length front + 1) }
    ensures kept { (front : List (List ℕ)) (read : States × List Item) → run start front ≡ Some read → IsKept read.0 }
    ensures one { (bytes : List ℕ) (m n : ℕ) → IsRefusedAt bytes m → IsRefusedAt bytes n → m ≡ n }
{
    requests_and_their_text();
    command_replies_and_their_text();
}
