//! A law on the words of tables.
ghost use Rattle.std.specs.Prelude.{◌≡◌, Bool, List, true};
ghost use Rattle.std.specs.List.{list_all};
ghost use Rattle.pf_token.specs.declared.token.Token.{Token as AnyToken};
ghost use Rattle.pf_syntax.specs.Symbols.{symbols};
ghost use Rattle.pf_decl.specs.Bytes.{entries_of, entry_has_bytes, mask_has_bytes, symbols_have_bytes};
ghost use Rattle.pf_decl.specs.Decls.{IsDecl};
ghost use Rattle.pf_decl.specs.declared.form.Decl.TheVariants.{Table};
ghost use Rattle.pf_decl.specs.declared.form.TableForm.{TableForm as AnyTable};

/// A law: where each word of the tokens has a byte, so has each word in the braces of a table that they declare, and each
/// word behind its `/`.
pub fn tables_have_words()
    ensures words { (tokens : List AnyToken) (body : Bool) (form : AnyTable) → symbols_have_bytes (symbols tokens) ≡ true → IsDecl tokens body (Table form) →
        list_all entry_has_bytes (entries_of form) ≡ true }
    ensures masks { (tokens : List AnyToken) (body : Bool) (form : AnyTable) → symbols_have_bytes (symbols tokens) ≡ true → IsDecl tokens body (Table form) →
        list_all mask_has_bytes (entries_of form) ≡ true }
{}
