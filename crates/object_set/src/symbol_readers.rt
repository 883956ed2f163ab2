// What a link asks of a symbol of a set. Symbol 0 counts as local, undefined and without a name, whatever its entry says.
ghost use Rattle.std.specs.Prelude.{◌≡◌, ◌<◌, IfSome, length};
ghost use Rattle.elf64_records.specs.FileHeader.{e_shnum};
ghost use Rattle.elf64_records.specs.Symbols.{symbol_count};
ghost use Rattle.object_set.specs.Files.{file_at};
ghost use Rattle.object_set.specs.Symbols.{is_local, is_weak, is_undefined, is_absolute, is_common, is_toc_base, section_index};

use crate::set::ObjectSet;
use ppc_bytes::constants::TOC_BASE;

impl<'a> ObjectSet<'a> {
    /// Whether only the symbol's own file sees it.
    pub fn is_local(&self, file: u32, symbol: u32) -> bool
        requires file { file < length self.now }
        requires symbol { symbol < symbol_count (file_at self.now file) }
        ensures { result ≡ is_local (file_at self.now file) symbol }
    {
        symbol == 0 || self.view(file).symbol_entry(symbol).is_local()
    }

    /// Whether the symbol is WEAK.
    pub fn is_weak(&self, file: u32, symbol: u32) -> bool
        requires file { file < length self.now }
        requires symbol { symbol < symbol_count (file_at self.now file) }
        ensures { result ≡ is_weak (file_at self.now file) symbol }
    {
        symbol != 0 && self.view(file).symbol_entry(symbol).is_weak()
    }

    /// Whether the file doesn't say what the symbol stands for.
    pub fn is_undefined(&self, file: u32, symbol: u32) -> bool
        requires file { file < length self.now }
        requires symbol { symbol < symbol_count (file_at self.now file) }
        ensures { result ≡ is_undefined (file_at self.now file) symbol }
    {
        symbol == 0 || self.view(file).symbol_entry(symbol).is_undefined()
    }

    /// Whether the symbol is a number.
    pub fn is_absolute(&self, file: u32, symbol: u32) -> bool
        requires file { file < length self.now }
        requires symbol { symbol < symbol_count (file_at self.now file) }
        ensures { result ≡ is_absolute (file_at self.now file) symbol }
    {
        symbol != 0 && self.view(file).symbol_entry(symbol).is_absolute()
    }

    /// Whether the symbol is a common.
    pub fn is_common(&self, file: u32, symbol: u32) -> bool
        requires file { file < length self.now }
        requires symbol { symbol < symbol_count (file_at self.now file) }
        ensures { result ≡ is_common (file_at self.now file) symbol }
    {
        symbol != 0 && self.view(file).symbol_entry(symbol).is_common()
    }

    /// Whether the symbol's name is `.TOC.`, that of the base of the table of contents.
    pub fn is_toc_base(&self, file: u32, symbol: u32) -> bool
        requires file { file < length self.now }
        requires symbol { symbol < symbol_count (file_at self.now file) }
        ensures { result ≡ is_toc_base (file_at self.now file) symbol }
    {
        // no file defines `.TOC.`, so that only what is undefined is asked for its name
        let _files = self.file_count();
        if symbol == 0 {
            return false;
        }
        let view = self.view(file);
        if !view.symbol_entry(symbol).is_undefined() {
            return false;
        }
        view.symbol_is_named(symbol, TOC_BASE)
    }

    /// The section in which the symbol lies, where its index is a section's number.
    pub fn section_of(&self, file: u32, symbol: u32) -> Option<u32>
        requires file { file < length self.now }
        requires symbol { symbol < symbol_count (file_at self.now file) }
        ensures section { result ≡ section_index (file_at self.now file) symbol }
        ensures within { IfSome result (λ i. i < e_shnum (file_at self.now file)) }
    {
        // no symbol of a set is refused
        let _files = self.file_count();
        if symbol == 0 {
            Some(0)
        } else {
            self.view(file).symbol_entry(symbol).section()
        }
    }
}
