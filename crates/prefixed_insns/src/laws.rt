// What callers may rely on about the words of pairs.
ghost use Rattle.std.specs.Prelude.{◌≡◌, ◌≢◌, ◌<◌, ◌≤◌, ◌^◌, Some};
ghost use Rattle.power_insns.specs.declared.instruction.Insn.{Insn};
ghost use Rattle.power_insns.specs.Operations.{operation_of};
ghost use Rattle.power_insns.specs.Table.{word_of, Fits as FitsWord};
ghost use Rattle.power_insns.specs.Uses.{Reads};
ghost use Rattle.power_insns.specs.Words.{total_bits, EachHolds};
ghost use Rattle.prefixed_insns.specs.declared.instruction.PInsn.{PInsn};
ghost use Rattle.prefixed_insns.specs.declared.short_forms.ShortForm.{ShortForm};
ghost use Rattle.prefixed_insns.specs.ShortForms.{short_form_of};
ghost use Rattle.prefixed_insns.specs.laws.ShortForms.{FitsShort};
ghost use Rattle.prefixed_insns.specs.Table.{prefix_fields, suffix_fields, prefix_of, suffix_of, Fits};

/// Both words have 32 bits, and each field holds what it is given.
pub fn pairs_are_two_words()
    ensures prefix_bits { (i : PInsn) → total_bits (prefix_fields i) ≡ 32 }
    ensures suffix_bits { (i : PInsn) → total_bits (suffix_fields i) ≡ 32 }
    ensures prefix_holds { (i : PInsn) → Fits i → EachHolds (prefix_fields i) }
    ensures suffix_holds { (i : PInsn) → Fits i → EachHolds (suffix_fields i) }
{}

/// No two instructions have the same two words.
pub fn pairs_tell_their_instruction()
    ensures { (i j : PInsn) → Fits i → Fits j → prefix_of i ≡ prefix_of j →
        suffix_of i ≡ suffix_of j → i ≡ j }
{}

/// No instruction of one word begins as one of two words does, so that taking words first hides no pair.
pub fn no_word_begins_a_pair()
    ensures { (i : Insn) (j : PInsn) → word_of i ≢ prefix_of j }
{}

/// A load or store that has a prefixed form has a primary opcode of 32 or more, and reads its base register.
pub fn short_forms_are_told()
    ensures word { (insn : Insn) (form : ShortForm) → short_form_of insn ≡ Some form →
        0x80000000 ≤ word_of insn }
    ensures base { (insn : Insn) (form : ShortForm) → short_form_of insn ≡ Some form →
        0 < form.base → Reads (operation_of insn) form.base }
    ensures fits { (insn : Insn) (form : ShortForm) → short_form_of insn ≡ Some form →
        FitsWord insn → FitsShort form }
{}
