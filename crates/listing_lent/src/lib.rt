// What a run of `listing` lends to its feeds: a fresh store.
#![tactic(auto)]

ghost use Rattle.std.specs.Prelude.{◌≡◌, [], ◌++◌, replicate};
ghost use Rattle.store_spec.specs.Layout.{layout};

// Makes zeros a fresh store, which only differs from them by its used length.
pub fn fresh_store(store: &mut [u8])
    requires { store.old ≡ replicate 65536 0 }
    ensures { store.new ≡ layout [] ++ replicate 65520 0 }
{
    store[4] = 16;
}
