//! Laws of the sizes of the queues, each the contract of a function that does no work.

ghost use Rattle.std.specs.Prelude.{◌≡◌, ℕ, List};
ghost use Rattle.vg_client_holds.specs.declared.setup.Setup.{Setup};
ghost use Rattle.vg_client_holds.specs.Setup.{IsSetup};
ghost use Rattle.vg_machine.specs.Entries.{Entry};
ghost use Rattle.vg_machine.specs.Order.{Sound};
ghost use Rattle.vg_machine.specs.Replay.{replay};
ghost use Rattle.vg_journal.specs.declared.journal.Journal.{Journal};
ghost use Rattle.vg_journal_lines.specs.Pieces.{JournalInRange};
ghost use Rattle.vg_check.specs.Right.{frames_after};
ghost use Rattle.vg_judge.specs.Verdicts.{IsLegal};
ghost use Rattle.vg_queue_sizes.specs.Queues.{other_queues, requeued, with_other_queues};

/// A law, and no work: a history that the display and its clients can have with queues of some sizes they can have with queues of any
/// others. The display after it is the same but for the sizes in its setup, and so are the frames that it has made.
pub fn sound_with_other_queues()
    ensures sound { (setup : Setup) (queues : ℕ × ℕ) (H : List Entry) → Sound setup H → Sound (other_queues setup queues) H }
    ensures display { (setup : Setup) (queues : ℕ × ℕ) (H : List Entry) → replay (other_queues setup queues) H ≡ requeued (replay setup H) queues }
    ensures frames { (setup : Setup) (queues : ℕ × ℕ) (H : List Entry) → frames_after (other_queues setup queues) H ≡ frames_after setup H }
{}

/// A law, and no work: a legal journal is legal with queues of any other sizes. One that can be read can be read with these too, where
/// its setup with these is one that a journal can have: the limits of displays and of clients go with the sizes. With those of version
/// 2 each setup is one.
pub fn legal_with_other_queues()
    ensures legal { (journal : Journal) (queues : ℕ × ℕ) → IsLegal journal → IsLegal (with_other_queues journal queues) }
    ensures in_range { (journal : Journal) (queues : ℕ × ℕ) → JournalInRange journal → IsSetup (other_queues journal.setup queues)
        → JournalInRange (with_other_queues journal queues) }
    ensures upgraded { (setup : Setup) → IsSetup setup → IsSetup (other_queues setup (256, 64)) }
{
    sound_with_other_queues();
}
