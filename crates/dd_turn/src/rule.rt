ghost use Rattle.dd_turn.specs.Turn.{Kept, ended, gave, idle, rang, same, took};

use crate::baton::{Baton, View};
use atomic_table::{Play, Split, TableRule};

/// What holds of the words, the value and all views between any two steps.
pub struct TurnRule;

impl<K, T: Baton<K>> TableRule<Option<T>, View<K>, K> for TurnRule {
    ghost holds = { Kept T.fits T.over };

    ghost first = { idle };
}

pub struct Take;

impl<K, T: Baton<K>> Play<Option<T>, View<K>> for Take {
    ghost then = { took T.fits };
}

pub struct Give;

impl<K, T> Play<Option<T>, View<K>> for Give {
    ghost then = { gave };
}

pub struct End;

impl<K, T> Play<Option<T>, View<K>> for End {
    ghost then = { ended };
}

pub struct Ring;

impl<K, T> Play<Option<T>, View<K>> for Ring {
    ghost then = { rang };
}

/// A seat is cut in two that know the same.
pub struct Twins;

impl<K> Split<View<K>> for Twins {
    ghost left = { same };

    ghost right = { same };
}
