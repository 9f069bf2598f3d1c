// The substitution layer as an interface: every column of the state replaced by its entry of the S-box.
ghost use Rattle.std.specs.Prelude.{◌≡◌};
ghost use Rattle.permutation.specs.Permutation.{substitute};

// The five words w0 to w4.
pub type State = [u64; 5];

// A way to compute the substitution layer.
pub trait Substitution {
    fn substituted(x: State) -> State
        ensures every_column_replaced { result ≡ substitute x };
}
