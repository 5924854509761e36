// Which alternatives of a rule are close to what a value was meant to be.
mod alternatives;
mod kinds;
mod literals;
mod names;
mod repeated;
mod same;
mod tags;
mod wants;
mod weights;

pub(crate) use alternatives::near;
pub(crate) use wants::wanted_of;
pub(crate) use weights::weight;
