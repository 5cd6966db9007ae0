//! What holds of the text of a vault, and of that of a catalog.
ghost use Rattle.std.specs.Prelude.{◌≡◌, ℕ};
ghost use Rattle.pots_racks.specs.Catalog.{TellsOne};
ghost use Rattle.pots_racks.specs.Racks.{vault_text};

/// Vaults with other numbers of racks have other texts. So what is written is read back, as the
/// same number.
pub fn vault_laws()
    ensures { (m n : ℕ) → vault_text m ≡ vault_text n → m ≡ n }
{}

/// Catalogs of other lines have other texts. So what is read of a text that was written has just
/// the lines that were written.
pub fn catalog_laws()
    ensures { TellsOne }
{}
