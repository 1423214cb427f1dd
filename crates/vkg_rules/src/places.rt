// Places in plans, as rules are told them.
ghost use Rattle.std.specs.Prelude.{◌≡◌, [], ◌∷◌, MatchOption, reverse};

/// The last turn of a place, if there is one, and the place without it.
pub fn last_turn(place: &[usize]) -> Option<(usize, &[usize])>
    ensures { MatchOption result (place.now ≡ []) (λ x. reverse place.now ≡ x.0 ∷ reverse x.1.now) }
{
    match place {
        [] => None,
        [below @ .., at] => Some((*at, below)),
    }
}
