// What the change of the order did, as promises of functions that do nothing.
ghost use Rattle.orders.specs.ShortFirst.{OfFamily, Order7};

use estimator::Estimator;

/// Of every entry, for sheets and for forms, with cases of each answer that changed or stayed.
#[tactic(auto, using(crate::proofs::Shorter::order_7))]
pub fn order_7()
    ensures { Order7 }
{}

/// Of the entries that both families have, for any family.
pub fn order_7_of_family<E: Estimator>()
    ensures { OfFamily E.family }
{}
