// Rooms that are alike: those that have the same form of their own.
ghost use Rattle.std.specs.Prelude.{◌≡◌, ◌==◌, position};
ghost use Rattle.sums.specs.Likeness.{FirstSame, AlikeInPlay};

// Where a form first stands in a row of forms.
fn first_place(forms: &[u16], own: u16) -> Option<usize>
    ensures { result ≡ position (λ form. form == own) forms.now }
{
    forms.iter().position(|form| *form == own)
}

// The first room before room i that is alike, given the rooms' own forms. None also where there is no room i.
pub fn alike(owns: &[u16], i: usize) -> Option<usize>
    ensures first { FirstSame owns.now i result }
    ensures play { AlikeInPlay owns.now i result }
{
    let own = owns.get(i)?;
    first_place(&owns[..i], *own)
}
