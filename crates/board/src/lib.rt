// The C interface: every public call of the recorder, over a device that is kept in 100 lent bytes.
#![tactic(auto, unfolding(crate::specs::Board::called, crate::specs::Board::on, crate::specs::Board::borrowed, promises::specs::Calls::outcome, common::specs::Refusals::is_refusal), using(kept::proofs::Laws::kept_still, kept::proofs::Laws::state_long, crate::proofs::Ways::through_still, crate::proofs::Ways::record_still, crate::proofs::Ways::text_still, crate::proofs::Ways::take_still))]

mod changes;
mod opening;
mod printing;
mod receiving;
mod register;
mod sending;
