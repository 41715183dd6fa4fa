ghost use Rattle.std.specs.Prelude.{◌≡◌, List, ℕ, nat_eq};
ghost use Rattle.std.specs.Cmp.{partial_equiv_from_equiv};
ghost use Rattle.std.specs.Cmp.Lexicographic.{pointwise, nat_list_eq_equiv};

use std::marker::Model;

/// A list of numbers below 2^32. Contracts see the list itself.
#[derive(Debug, Drop)]
pub struct Nums {
    items: Vec<u32>,
}

impl Model for Nums {
    ghost Value = { List ℕ };

    ghost view = { λ nums. nums.items.items };
}

impl PartialEq for Nums {
    ghost eq = { pointwise nat_eq };

    ghost laws = { partial_equiv_from_equiv nat_list_eq_equiv };

    fn eq(&self, other: &Nums) -> bool {
        self.items == other.items
    }
}

impl Eq for Nums {
    ghost laws = { nat_list_eq_equiv };
}

impl Nums {
    /// Returns the list of the vector's numbers, without allocating.
    pub fn of(items: Vec<u32>) -> Nums
        ensures { result ≡ items.items }
    {
        Nums { items }
    }

    /// The numbers, in order.
    pub fn as_slice(&self) -> &[u32]
        ensures { result.now ≡ self.now }
    {
        self.items.as_slice()
    }

    /// Returns the vector that holds the numbers, without allocating.
    pub fn into_vec(self) -> Vec<u32>
        ensures { result.items ≡ self }
    {
        let Nums { items } = self;
        items
    }
}

/// A list of numbers below 2^64. Contracts see the list itself.
#[derive(Debug, Drop)]
pub struct Words {
    items: Vec<u64>,
}

impl Model for Words {
    ghost Value = { List ℕ };

    ghost view = { λ words. words.items.items };
}

impl PartialEq for Words {
    ghost eq = { pointwise nat_eq };

    ghost laws = { partial_equiv_from_equiv nat_list_eq_equiv };

    fn eq(&self, other: &Words) -> bool {
        self.items == other.items
    }
}

impl Eq for Words {
    ghost laws = { nat_list_eq_equiv };
}

impl Words {
    /// Returns the list of the vector's numbers, without allocating.
    pub fn of(items: Vec<u64>) -> Words
        ensures { result ≡ items.items }
    {
        Words { items }
    }

    /// The numbers, in order.
    pub fn as_slice(&self) -> &[u64]
        ensures { result.now ≡ self.now }
    {
        self.items.as_slice()
    }

    /// Returns the vector that holds the numbers, without allocating.
    pub fn into_vec(self) -> Vec<u64>
        ensures { result.items ≡ self }
    {
        let Words { items } = self;
        items
    }
}

#[cfg(test)]
mod tests {
    use super::*;
    use crate::Digest32;
    use std::test::Fail;

    fn is_shared<T: Send + Sync>(_value: &T) -> bool {
        true
    }

    #[test]
    fn numbers_go_in_and_come_out(rt: HostRuntime) -> Result<(), Fail> {
        let nums = Nums::of(vec![in rt.alloc(); 3u32, 1, 4_294_967_295]?);
        assert!(rt; is_shared(&nums));
        assert_eq!(rt; nums.as_slice(), [3, 1, 4_294_967_295].as_slice());
        assert_eq!(rt;
            nums,
            Nums::of(vec![in rt.alloc(); 3u32, 1, 4_294_967_295]?)
        );
        assert!(rt; nums != Nums::of(vec![in rt.alloc(); 3u32, 1]?));
        assert_eq!(rt;
            nums.into_vec().as_slice(),
            [3, 1, 4_294_967_295].as_slice()
        );

        let words = Words::of(vec![in rt.alloc(); 7u64, 18_446_744_073_709_551_615]?);
        assert!(rt; is_shared(&words));
        assert_eq!(rt;
            words,
            Words::of(vec![in rt.alloc(); 7u64, 18_446_744_073_709_551_615]?)
        );
        assert!(rt; words != Words::of(vec![in rt.alloc(); 7u64, 0]?));
        assert_eq!(rt;
            words.as_slice(),
            [7, 18_446_744_073_709_551_615].as_slice()
        );
        assert_eq!(rt;
            words.into_vec().as_slice(),
            [7, 18_446_744_073_709_551_615].as_slice()
        );

        assert!(rt; is_shared(&Digest32 { bytes: [0; 32] }));
        Ok(())
    }
}
