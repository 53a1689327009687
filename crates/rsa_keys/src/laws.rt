//! What holds of keys, for all octets: there is no code to run.
ghost use Rattle.std.specs.Prelude.{◌≡◌, ◌↔◌, ℕ, List, Some};
ghost use Rattle.der_core.specs.Element.{IsBytes};
ghost use Rattle.rsa_keys.specs.KeyValue.{IsRsaKey, KeyValue};
ghost use Rattle.rsa_keys.specs.KeyReading.{key_in};
ghost use Rattle.rsa_keys.specs.ParameterValue.{IsPss};
ghost use Rattle.rsa_keys.specs.ParameterReading.{pss_in};
ghost use Rattle.rsa_keys.specs.declared.parameters.PssParameters.{PssParameters};
ghost use Rattle.rsa_keys.specs.KeyRows.{KeyRows, ParameterRows, SchemeRows};

/// `key_in` gives a key exactly if octets are its SubjectPublicKeyInfo, and so no octets are that of two keys.
pub fn keys_are_read()
    ensures { (octets : List ℕ) (key : KeyValue) → IsBytes octets → (key_in octets ≡ Some key) ↔ IsRsaKey octets key }
{}

/// `pss_in` gives parameters exactly if octets encode them, and so no octets encode two.
pub fn parameters_are_read()
    ensures { (octets : List ℕ) (p : PssParameters) → IsBytes octets → (pss_in octets ≡ Some p) ↔ IsPss octets p }
{}

/// The worked rows of keys, of parameters, and of what keys are for.
pub fn rows_hold()
    // Keys.
    ensures keys { KeyRows }
    // Parameters of RSASSA-PSS.
    ensures parameters { ParameterRows }
    // What keys are for.
    ensures schemes { SchemeRows }
{}
