use crate::rank::Rank;
use crate::site::Site;
use carts::Cart;

mod taking;

// What the records so far say, kept until the last one is read; the lanes and the tariff lines are only counted.
#[derive(Drop)]
pub struct Reading {
    pub site: Site,
    // as many rows as a draft may enter; the draft counts those in use, so an `ArrayVec` would count them a second time
    pub carts: [Cart; 6],
    // the last record's
    pub rank: Rank,
}
