//! Laws of the definitions, for the crates above: a caller of a law has its clauses.
ghost use Rattle.std.specs.Prelude.{◌≡◌, ℕ, List, ◌↔◌, IsTrue};
ghost use Rattle.std.specs.Cmp.{IsTotalOrder};
ghost use Rattle.std.specs.List.{list_all};
ghost use Rattle.std.specs.declared.cmp.Ordering.TheVariants as Order;
ghost use Rattle.pf_addr.specs.declared.addr.Addr.{Addr};
ghost use Rattle.pf_addr.specs.declared.parse.Masked.{Masked};
ghost use Rattle.pf_addr.specs.declared.prefix.Prefix.{Prefix};
ghost use Rattle.pf_addr.specs.declared.range.Range.{Range};
ghost use Rattle.pf_addr.specs.Addr.{IsAddr, SameFamily, family_of};
ghost use Rattle.pf_addr.specs.AddrOrder.{addr_cmp, addr_eq};
ghost use Rattle.pf_addr.specs.Grammar.{IsAddrText, IsNetworkText, Writes};
ghost use Rattle.pf_addr.specs.PrefixOrder.{prefix_cmp, prefix_eq};
ghost use Rattle.pf_addr.specs.Prefix as prefix_sets;
ghost use Rattle.pf_addr.specs.PrefixText.{IsMaskedText, IsPrefixText, prefix_text};
ghost use Rattle.pf_addr.specs.Range as range_sets;
ghost use Rattle.pf_addr.specs.RangeOrder.{range_eq};
ghost use Rattle.pf_addr.specs.Stretch as stretches;
ghost use Rattle.pf_addr.specs.Stretch.{prefix_stretch, range_stretch};
ghost use Rattle.pf_addr.specs.Text.{addr_text};
ghost use Rattle.pf_addr.specs.Words.{IsOneWord, is_addr_byte, is_prefix_byte};

/// `==` of addresses, prefixes and ranges holds exactly where the two are one value, and `cmp` is a total
/// order in which exactly those are level. Two addresses have one width exactly where they have one family.
pub fn equal_values_are_one()
    ensures addresses { (a b : Addr) → IsTrue (addr_eq a b) ↔ (a ≡ b) }
    ensures prefixes { (p q : Prefix) → IsTrue (prefix_eq p q) ↔ (p ≡ q) }
    ensures ranges { (r s : Range) → IsTrue (range_eq r s) ↔ (r ≡ s) }
    ensures level_addresses { (a b : Addr) → (addr_cmp a b ≡ Order.Equal) ↔ (a ≡ b) }
    ensures level_prefixes { (p q : Prefix) → (prefix_cmp p q ≡ Order.Equal) ↔ (p ≡ q) }
    ensures addr_order { IsTotalOrder addr_cmp }
    ensures prefix_order { IsTotalOrder prefix_cmp }
    ensures families { (a b : Addr) → SameFamily a b ↔ (family_of a ≡ family_of b) }
{}

/// The stretch of a prefix or a range has exactly its addresses.
pub fn stretches_have_the_addresses()
    ensures prefixes { (p : Prefix) (a : Addr) → stretches.contains (prefix_stretch p) a ≡ prefix_sets.contains p a }
    ensures ranges { (r : Range) (a : Addr) → stretches.contains (range_stretch r) a ≡ range_sets.contains r a }
{}

/// A text writes at most one address, one network before a mask, one prefix, and one address with its network.
pub fn texts_are_read_in_one_way()
    ensures address { (text : List ℕ) (a b : Addr) → IsAddrText text a → IsAddrText text b → a ≡ b }
    ensures network { (text : List ℕ) (a b : Addr) → IsNetworkText text a → IsNetworkText text b → a ≡ b }
    ensures mask { (text : List ℕ) (a b : Addr) (m n : ℕ) → Writes text a m → Writes text b n → m ≡ n }
    ensures prefix { (text : List ℕ) (p q : Prefix) → IsPrefixText text p → IsPrefixText text q → p ≡ q }
    ensures masked { (text : List ℕ) (m n : Masked) → IsMaskedText text m → IsMaskedText text n → m ≡ n }
{}

/// What is printed of an address or a prefix is a text of it.
pub fn printed_texts_read_back()
    ensures address { (a : Addr) → IsAddr a → IsAddrText (addr_text a) a }
    ensures prefix { (p : Prefix) → IsAddr p.addr → IsPrefixText (prefix_text p) p }
{}

/// What is printed of an address has digits, `a` to `f`, dots and colons alone, a prefix also a slash; neither
/// is empty, so each is one word.
pub fn printed_texts_are_one_word()
    ensures address_bytes { (a : Addr) → IsAddr a → IsTrue (list_all is_addr_byte (addr_text a)) }
    ensures prefix_bytes { (p : Prefix) → IsAddr p.addr → IsTrue (list_all is_prefix_byte (prefix_text p)) }
    ensures address { (a : Addr) → IsAddr a → IsOneWord (addr_text a) }
    ensures prefix { (p : Prefix) → IsAddr p.addr → IsOneWord (prefix_text p) }
{}
