//! Lists of numbers from which one is taken away.

ghost use Rattle.std.specs.List.{position};
ghost use Rattle.std.specs.Prelude.{◌≡◌, ◌<◌, IfSome, length};
ghost use Rattle.vg_share.specs.Lists.{is_number, without_first};

use vg_list::Seq;

/// Takes the first of these numbers that is `n` away, if one is.
pub fn remove_number(list: &mut Seq<u32>, n: u32)
    ensures { list.new ≡ without_first (is_number n) list.old }
{
    if let Some(index) = first_place(list.as_slice(), n) {
        list.remove(index);
    }
}

/// Where the first of these numbers that is `n` stands, if one is.
fn first_place(numbers: &[u32], n: u32) -> Option<usize>
    ensures place { result ≡ position (is_number n) numbers.now }
    ensures within { IfSome result (λ index. index < length numbers.now) }
{
    numbers.iter().position(|one| *one == n)
}
