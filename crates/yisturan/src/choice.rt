// The choice that a line makes by its compression and a kind of keeper.

// One of four: a keeper, or a bridge over one.
#[derive(Drop)]
pub(crate) enum Choice<BB, FB, BT, FT> {
    BareBlake2s(BB),
    FullBlake2s(FB),
    BareTally(BT),
    FullTally(FT),
}
