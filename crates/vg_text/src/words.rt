//! Words and numbers of a text.

ghost use Rattle.std.specs.Prelude.{◌≡◌, ◌++◌, codes, decimal, true, OnErr, OnOk};
ghost use Rattle.vg_list.specs.Front.{HasFront};
ghost use Rattle.vg_text.specs.Text.{are_characters, hex_text};

use crate::packed::Packed;
use itoa::Buffer;
use std::alloc::AllocError;

impl Packed {
    /// Adds a number in decimal digits. For want of memory nothing changes.
    pub fn put_number(&mut self, number: u64) -> Result<(), AllocError>
        ensures ok { OnOk result (self.new ≡ self.old ++ decimal number) }
        ensures err { OnErr result (self.new ≡ self.old) }
    {
        let mut digits = Buffer::new();
        self.put(digits.format(number).as_bytes())
    }

    /// Adds a word and a number. For want of memory, here and below, a front of the text is added.
    #[tactic(auto, using(vg_list::proofs::FrontLemmas::fronts))]
    pub fn put_counted(&mut self, word: &[u8], number: u64) -> Result<(), AllocError>
        requires { are_characters word.now ≡ true }
        ensures ok { OnOk result (self.new ≡ self.old ++ (word.now ++ decimal number)) }
        ensures err { OnErr result (HasFront self.old self.new (word.now ++ decimal number)) }
    {
        self.put(word)?;
        self.put_number(number)
    }

    /// The same with a number of 32 bits.
    pub fn put_numbered(&mut self, word: &[u8], number: u32) -> Result<(), AllocError>
        requires { are_characters word.now ≡ true }
        ensures ok { OnOk result (self.new ≡ self.old ++ (word.now ++ decimal number)) }
        ensures err { OnErr result (HasFront self.old self.new (word.now ++ decimal number)) }
    {
        self.put_counted(word, u64::from(number))
    }

    /// Adds a word, a number, and a line end.
    #[tactic(auto, using(vg_list::proofs::FrontLemmas::fronts))]
    pub fn put_line(&mut self, word: &[u8], number: u64) -> Result<(), AllocError>
        requires { are_characters word.now ≡ true }
        ensures ok { OnOk result (self.new ≡ self.old ++ (word.now ++ decimal number ++ codes "\n")) }
        ensures err { OnErr result (HasFront self.old self.new (word.now ++ decimal number ++ codes "\n")) }
    {
        self.put_counted(word, number)?;
        self.put(b"\n")
    }

    /// Adds three numbers with blanks between them.
    #[tactic(auto, using(vg_list::proofs::FrontLemmas::fronts))]
    pub fn put_three(&mut self, first: u64, second: u64, third: u64) -> Result<(), AllocError>
        ensures ok { OnOk result (
            self.new ≡
            self.old ++ (decimal first ++ codes " " ++ decimal second ++ codes " " ++ decimal third)) }
        ensures err { OnErr result (
            HasFront self.old self.new
            (decimal first ++ codes " " ++ decimal second ++ codes " " ++ decimal third)) }
    {
        self.put_number(first)?;
        self.put_counted(b" ", second)?;
        self.put_counted(b" ", third)
    }

    /// Adds a word, and bytes as hexadecimal digits.
    #[tactic(auto, using(vg_list::proofs::FrontLemmas::fronts))]
    pub fn put_bytes(&mut self, word: &[u8], bytes: &[u8]) -> Result<(), AllocError>
        requires { are_characters word.now ≡ true }
        ensures ok { OnOk result (self.new ≡ self.old ++ (word.now ++ hex_text bytes.now)) }
        ensures err { OnErr result (HasFront self.old self.new (word.now ++ hex_text bytes.now)) }
    {
        self.put(word)?;
        self.put_hex(bytes)
    }
}
