// What a type of value needs to be read and printed: which numbers stand for its values.
ghost use Rattle.std.specs.Prelude.{◌≡◌, Bool, ℤ, Some, Option, refl};
ghost use Rattle.marks.specs.Values.{switched, switch_number, switch_back};

pub trait Value: Copy {
    // The value that a number stands for, if it stands for one.
    ghost valued: { ℤ → Option Self };

    // The number of a value.
    ghost numbered: { Self → ℤ };

    fn of(number: i32) -> Option<Self>
        ensures { result ≡ valued number };

    fn number(self) -> i32
        ensures { result ≡ numbered self };

    // A value is what its number stands for.
    ghost back: { (v : Self) → valued (numbered v) ≡ Some v };
}

// A number stands for itself.
impl Value for i32 {
    ghost valued = { λ n. Some n };

    ghost numbered = { λ v. v };

    ghost back = { λ _. refl };

    fn of(number: i32) -> Option<i32> {
        Some(number)
    }

    fn number(self) -> i32 {
        self
    }
}

// 0 stands for no and 1 for yes.
impl Value for bool {
    ghost valued = { switched };

    ghost numbered = { switch_number };

    ghost back = { switch_back };

    fn of(number: i32) -> Option<bool> {
        match number {
            0 => Some(false),
            1 => Some(true),
            _ => None,
        }
    }

    fn number(self) -> i32 {
        i32::from(self)
    }
}
